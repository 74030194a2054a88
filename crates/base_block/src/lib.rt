// The base block of a hive, its first 4,096 bytes, and its checksum.
#![tactic(auto)]

ghost use Rattle.std.specs.Prelude.{◌≡◌, ◌*◌, ◌≤◌, length};
ghost use Rattle.words.specs.Paper.{fault_number};
ghost use Rattle.words.specs.Parts.{Part};
ghost use Rattle.base_block.specs.Checksum.{xor_of, mended, checksum_of};
ghost use Rattle.base_block.specs.Block.{type_of, format_of, fields_of, head_fault, block_of, part_of, part_at};
ghost use Rattle.base_block.specs.Answers.{sum_paper, block_paper};
ghost use Rattle.base_block.specs.Sheets.{LaidOut, Folded};

use words::{Reason, Refusal};

// Copies bytes 0 to 507 to a sheet, where they are 127 rows of four columns.
fn lay_out(s: &[u8], sheet: &mut [u8])
    requires { (508 ≤ length s.now) × (508 ≤ length sheet.old) }
    ensures { LaidOut s.now sheet.old sheet.new }
{
    sheet[..508].copy_from_slice(&s[..508]);
}

// Folds the sheet between its first `rows` rows and as many below them: row upon row, so that each column is folded by itself.
fn fold(sheet: &mut [u8], rows: usize)
    requires { 8 * rows ≤ length sheet.old }
    ensures { Folded rows sheet.old sheet.new }
{
    let half = 4 * rows;
    for i in 0..half {
        sheet[i] ^= sheet[half + i];
    }
}

// The XOR of the 127 words of bytes 0 to 507, which are there, by columns: the sheet, whose last row is blank where the checksum itself
// would stand, is folded until one row is left, and the four columns are joined. (docs/CHECKSUM.md follows it on a dump.)
fn xor_words(s: &[u8]) -> u32
    requires { 508 ≤ length s.now }
    ensures { result ≡ xor_of s.now 127 }
{
    let mut sheet = [0u8; 512];
    lay_out(s, &mut sheet);
    fold(&mut sheet, 64);
    fold(&mut sheet, 32);
    fold(&mut sheet, 16);
    fold(&mut sheet, 8);
    fold(&mut sheet, 4);
    fold(&mut sheet, 2);
    fold(&mut sheet, 1);
    let [first, second, third, fourth, ..] = sheet;
    words::join4(first, second, third, fourth)
}

#[tactic(auto, unfolding(crate::specs::Checksum::mended))]
fn mend(x: u32) -> u32
    ensures { result ≡ mended x }
{
    match x {
        0 => 1,
        0xFFFF_FFFF => 0xFFFF_FFFE,
        _ => x,
    }
}

// The checksum of the first 508 bytes of any slice.
#[tactic(auto, unfolding(crate::specs::Checksum::checksum_of, crate::specs::Checksum::sum_of))]
pub fn calculate_checksum(bytes: &[u8]) -> Result<u32, Refusal>
    ensures { sum_paper result ≡ checksum_of bytes.now }
{
    if bytes.len() < 508 {
        return Err(Refusal {
            reason: Reason::Short,
            position: 0,
        });
    }
    Ok(mend(xor_words(bytes)))
}

#[derive(Clone, Copy, PartialEq, Eq)]
pub enum FileType {
    Primary,
    TransactionLog,
    TransactionLogNewFormat,
    UnknownType,
}

#[derive(Clone, Copy, PartialEq, Eq)]
pub enum FileFormat {
    DirectMemoryLoad,
    UnknownFormat,
}

// The fields of a base block that are numbers. Times are raw; a kind stands beside its raw number.
#[derive(Clone, Copy)]
pub struct BaseBlock {
    pub primary_sequence_number: u32,
    pub secondary_sequence_number: u32,
    pub last_modification_time: u64,
    pub major_version: u32,
    pub minor_version: u32,
    pub file_type: FileType,
    pub file_type_raw: u32,
    pub format: FileFormat,
    pub format_raw: u32,
    pub root_cell_offset: i32,
    pub hive_bins_data_size: u32,
    pub clustering_factor: u32,
    pub checksum: u32,
    pub computed_checksum: u32,
    pub flags: u32,
    pub signature: u32,
    pub last_reorganized_time: u64,
    pub boot_type: u32,
    pub boot_recover: u32,
}

// The length of a base block.
const BLOCK_SIZE: usize = 4096;

impl From<u32> for FileType {
    ghost from_gives = { λ raw kind. kind ≡ type_of raw };

    #[tactic(auto, unfolding(crate::specs::Block::type_of))]
    fn from(raw: u32) -> FileType {
        match raw {
            0 => FileType::Primary,
            1 => FileType::TransactionLog,
            6 => FileType::TransactionLogNewFormat,
            _ => FileType::UnknownType,
        }
    }
}

impl From<u32> for FileFormat {
    ghost from_gives = { λ raw format. format ≡ format_of raw };

    #[tactic(auto, unfolding(crate::specs::Block::format_of))]
    fn from(raw: u32) -> FileFormat {
        match raw {
            1 => FileFormat::DirectMemoryLoad,
            _ => FileFormat::UnknownFormat,
        }
    }
}

fn fields(s: &[u8]) -> BaseBlock
    requires { 508 ≤ length s.now }
    ensures { result ≡ fields_of s.now }
{
    let file_type_raw = words::u32_at(s, 28);
    let format_raw = words::u32_at(s, 32);
    BaseBlock {
        primary_sequence_number: words::u32_at(s, 4),
        secondary_sequence_number: words::u32_at(s, 8),
        last_modification_time: words::u64_at(s, 12),
        major_version: words::u32_at(s, 20),
        minor_version: words::u32_at(s, 24),
        file_type: FileType::from(file_type_raw),
        file_type_raw,
        format: FileFormat::from(format_raw),
        format_raw,
        root_cell_offset: words::i32_at(s, 36),
        hive_bins_data_size: words::u32_at(s, 40),
        clustering_factor: words::u32_at(s, 44),
        checksum: words::u32_at(s, 508),
        computed_checksum: mend(xor_words(s)),
        flags: words::u32_at(s, 544),
        signature: words::u32_at(s, 564),
        last_reorganized_time: words::u64_at(s, 568),
        boot_type: words::u32_at(s, 4088),
        boot_recover: words::u32_at(s, 4092),
    }
}

// The first check that fails, of what has a least length.
#[tactic(auto, unfolding(crate::specs::Block::head_fault))]
fn fault(image: &[u8], least: usize) -> Option<Reason>
    ensures { fault_number result ≡ head_fault least image.now }
{
    if image.len() < least {
        return Some(Reason::Short);
    }
    let signature = words::u32_at(image, 0);
    if signature == 0x6667_6572 {
        None
    } else {
        Some(Reason::BadSign)
    }
}

// The base block of any image. A wrong checksum is no refusal: the stored and the computed one stand side by side.
pub fn read_base_block(image: &[u8]) -> Result<BaseBlock, Refusal>
    ensures { block_paper result ≡ block_of image.now }
{
    match fault(image, BLOCK_SIZE) {
        None => Ok(fields(image)),
        Some(reason) => Err(Refusal {
            reason,
            position: 0,
        }),
    }
}

// A part of the image that holds a base block, the empty part where it holds none.
fn block_part(image: &[u8], at: usize, n: usize) -> &[u8]
    requires { at ≤ 4096 }
    ensures { Part image.entry result (part_at image.now at) (part_of image.now at n) }
{
    match fault(image, BLOCK_SIZE) {
        None => words::part(image, at, n),
        Some(_) => &image[0..0],
    }
}

// The 64 bytes of the file's name.
pub fn filename(image: &[u8]) -> &[u8]
    ensures { Part image.entry result (part_at image.now 48) (part_of image.now 48 64) }
{
    block_part(image, 48, 64)
}

// The 396 bytes that have no name.
pub fn unnamed(image: &[u8]) -> &[u8]
    ensures { Part image.entry result (part_at image.now 112) (part_of image.now 112 396) }
{
    block_part(image, 112, 396)
}

// The 16 bytes of the resource manager's id.
pub fn rm_id(image: &[u8]) -> &[u8]
    ensures { Part image.entry result (part_at image.now 512) (part_of image.now 512 16) }
{
    block_part(image, 512, 16)
}

// The 16 bytes of the log's id.
pub fn log_id(image: &[u8]) -> &[u8]
    ensures { Part image.entry result (part_at image.now 528) (part_of image.now 528 16) }
{
    block_part(image, 528, 16)
}

// The 16 bytes of the transaction manager's id.
pub fn tm_id(image: &[u8]) -> &[u8]
    ensures { Part image.entry result (part_at image.now 548) (part_of image.now 548 16) }
{
    block_part(image, 548, 16)
}

// The 3,512 bytes of the extension behind its time.
pub fn remaining(image: &[u8]) -> &[u8]
    ensures { Part image.entry result (part_at image.now 576) (part_of image.now 576 3512) }
{
    block_part(image, 576, 3512)
}
