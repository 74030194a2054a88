// The stream of cases (compare/README.md): each case is read, and answered by what the program gives.
use super::buffers;
use console::say;
use replay_case::Case;

// The two tags that are no case: bytes over the image, and another length of it.
const PATCH: u8 = 100;

const LENGTH: u8 = 101;

// The bits of a mask for a new name and a new image, and all bits that a mask has.
const NAME: u8 = 32;

const IMAGE: u8 = 64;

const ALL: u8 = 127;

// Why a run ends.
#[derive(Clone, Copy)]
enum End {
    NoMore,
    BadCase,
}

// The next bytes of the input over the start of a buffer, where it has room for them and they are all there.
fn load(buffer: &mut [u8], n: u32) -> Result<(), End> {
    let n = n as usize;
    if n <= buffer.len() && io::read_full(0, &mut buffer[..n]) == n {
        Ok(())
    } else {
        Err(End::BadCase)
    }
}

// Bytes over an image from a place on, as many as it has places.
fn patch(image: &mut [u8], at: usize, bytes: &[u8]) {
    if at < image.len() {
        let n = bytes.len().min(image.len() - at);
        image[at..at + n].copy_from_slice(&bytes[..n]);
    }
}

// What a program gives for a case. (A trait, as it may be called with any case: a function that is handed over owes that.)
pub trait Answers {
    fn answer(&self, tag: u8, case: Case, image: &[u8], name: &[u8], out: &mut [u32]);
}

// A case that is no patch and no length: its line.
fn line<A: Answers>(
    answers: &A,
    tag: u8,
    case: Case,
    image: &[u8],
    name: &[u8],
    out: &mut [u32],
) -> Result<Case, End> {
    let n = case.image as usize;
    let m = case.name as usize;
    if image.len() < n || name.len() < m {
        return Err(End::BadCase);
    }
    say!("{tag}");
    answers.answer(tag, case, &image[..n], &name[..m], out);
    say!("\n");
    Ok(case)
}

// One case, or one patch or length: the words that it leaves for the next one. A part that the mask leaves out stands as before.
fn turn<A: Answers>(
    answers: &A,
    old: Case,
    image: &mut [u8],
    name: &mut [u8],
    out: &mut [u32],
) -> Result<Case, End> {
    let mut start = [0u8; 2];
    match io::read_full(0, &mut start) {
        0 => return Err(End::NoMore),
        1 => return Err(End::BadCase),
        _ => {}
    }
    let [tag, mask] = start;
    if ALL < mask {
        return Err(End::BadCase);
    }
    let mut news = [0u8; 28];
    load(&mut news, 4 * mask.count_ones())?;
    let case = replay_case::renew(old, mask, &news);
    if mask & NAME != 0 {
        load(name, case.name)?;
    }
    if mask & IMAGE != 0 {
        load(image, case.image)?;
    }
    match tag {
        PATCH => {
            patch(
                image,
                case.a as usize,
                words::part(name, 0, case.name as usize),
            );
            Ok(case)
        }
        LENGTH => Ok(Case {
            image: case.a,
            ..case
        }),
        _ => line(answers, tag, case, image, name, out),
    }
}

fn turns<A: Answers>(answers: &A, image: &mut [u8], name: &mut [u8], out: &mut [u32]) {
    let mut case = Case::default();
    for _turn in 0..u64::MAX {
        match turn(answers, case, image, name, out) {
            Ok(next) => case = next,
            Err(End::NoMore) => return,
            Err(End::BadCase) => {
                say!("bad case\n");
                return;
            }
        }
    }
}

// Replays the cases of standard input, in more turns than a run can use up.
pub fn replay<A: Answers>(answers: &A) {
    let mut image = buffers::bytes_space::<524288>();
    let mut name = buffers::bytes_space::<65536>();
    let mut out = buffers::places_space::<262144>();
    turns(answers, &mut image, &mut name, &mut out);
}
