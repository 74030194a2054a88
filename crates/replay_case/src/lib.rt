// What the replaying programs share: the words of a case of the stream (compare/README.md), and the sums by which a row of numbers
// is told.
#![tactic(auto)]

ghost use Rattle.std.specs.Prelude.{◌≡◌, ◌<◌, ℕ, length, map};
ghost use Rattle.replay_case.specs.Case.{bit, fresh, renewed};
ghost use Rattle.replay_case.specs.Sums.{one_more, sums_of, place_at};

// A case's five words, and the lengths of its name and its image.
#[derive(Clone, Copy, Default)]
pub struct Case {
    pub a: u32,
    pub b: u32,
    pub c: u32,
    pub d: u32,
    pub e: u32,
    pub name: u32,
    pub image: u32,
}

// A row's sum, and the sum of its running sums, both in 64 bits.
#[derive(Clone, Copy, Default)]
pub struct Sums {
    pub plain: u64,
    pub running: u64,
}

// A bit of a mask.
#[tactic(auto, using(std::proofs::lemmas::Nat::Bits::shr_and_one))]
fn bit(mask: u8, i: u8) -> u8
    requires { i < 8 }
    ensures { result ≡ bit mask i }
{
    mask >> i & 1
}

// The new word behind `before` others where the bit is 1, else the old one.
fn word(news: &[u8], before: u8, bit: u8, old: u32) -> u32
    ensures { result ≡ fresh news.now before bit old }
{
    if bit == 1 {
        words::u32_at(news, 4 * before as usize)
    } else {
        old
    }
}

// The words after a case before: for each bit of the mask the next of the new words, lowest bit first.
pub fn renew(old: Case, mask: u8, news: &[u8]) -> Case
    ensures { result ≡ renewed old mask news.now }
{
    let bit_a = bit(mask, 0);
    let bit_b = bit(mask, 1);
    let bit_c = bit(mask, 2);
    let bit_d = bit(mask, 3);
    let bit_e = bit(mask, 4);
    let bit_name = bit(mask, 5);
    let bit_image = bit(mask, 6);
    let before_c = bit_a + bit_b;
    let before_d = before_c + bit_c;
    let before_e = before_d + bit_d;
    let before_name = before_e + bit_e;
    let before_image = before_name + bit_name;
    Case {
        a: word(news, 0, bit_a, old.a),
        b: word(news, bit_a, bit_b, old.b),
        c: word(news, before_c, bit_c, old.c),
        d: word(news, before_d, bit_d, old.d),
        e: word(news, before_e, bit_e, old.e),
        name: word(news, before_name, bit_name, old.name),
        image: word(news, before_image, bit_image, old.image),
    }
}

// What a row has in its places, and the number in 64 bits that each is.
pub trait Number: Copy {
    ghost number: { Self → ℕ };

    fn wide(self) -> u64
        ensures { result ≡ number self };
}

impl Number for u8 {
    ghost number = { λ x. x };

    fn wide(self) -> u64 {
        self as u64
    }
}

impl Number for u32 {
    ghost number = { λ x. x };

    fn wide(self) -> u64 {
        self as u64
    }
}

impl Number for u64 {
    ghost number = { λ x. x };

    fn wide(self) -> u64 {
        self
    }
}

impl Sums {
    // The sums with one number more.
    #[tactic(auto, unfolding(crate::specs::Sums::one_more))]
    pub fn more(self, x: u64) -> Sums
        ensures { result ≡ one_more self x }
    {
        let plain = self.plain.wrapping_add(x);
        let running = self.running.wrapping_add(plain);
        Sums { plain, running }
    }

    // The sums of a row of bytes, of places or of 64-bit places.
    pub fn of_row<T: Number>(row: &[T]) -> Sums
        ensures { result ≡ sums_of (place_at (map T.number row.now)) (length row.now) }
    {
        let mut sums = Sums::default();
        for x in row {
            sums = sums.more(x.wide());
        }
        sums
    }
}
