// Records of a sheet, four words each, by their index. Document 01, "Sheet" and "Forms for parts of the code".
ghost use Rattle.std.specs.Prelude.{◌≡◌, ◌+◌, ◌*◌, ◌<◌, length};
ghost use Rattle.sheetmodel.specs.Layout.{records, field, put, put_record};
ghost use Rattle.sheet.specs.Survey.{record_at};

// The four words of a record: of a lot number, next lot, newest inspection and 0; of an inspection
// class, next older, its lot's record and serial; of a free record depth, next free, 0 and a tag.
// Zero in `next` or `link` is no record: document 01 ends a chain by it, so these words are no Option.
#[derive(Clone, Copy)]
pub struct Record {
    pub value: u32,
    pub next: u32,
    pub link: u32,
    pub tag: u32,
}

// The places of a record's words.
pub const VALUE: usize = 0;

pub const NEXT: usize = 1;

pub const LINK: usize = 2;

pub const TAG: usize = 3;

// How many whole records there are.
pub fn record_count(sheet: &[u32]) -> usize
    ensures { result ≡ records sheet.now }
{
    sheet.len() / 4
}

// One word, by its place in the record: a whole `Record` read and put back for it would be no plainer.
pub fn field_of(sheet: &[u32], j: u32, f: usize) -> u32
    requires { 4 * j + f < length sheet.now }
    ensures { result ≡ field sheet.now j f }
{
    sheet[4 * j as usize + f]
}

pub fn record_at(sheet: &[u32], j: usize) -> Record
    requires { 4 * j + 3 < length sheet.now }
    ensures { result ≡ record_at sheet.now j }
{
    Record {
        value: sheet[4 * j + VALUE],
        next: sheet[4 * j + NEXT],
        link: sheet[4 * j + LINK],
        tag: sheet[4 * j + TAG],
    }
}

pub fn put_field(sheet: &mut [u32], j: u32, f: usize, v: u32)
    requires { 4 * j + f < length sheet.old }
    ensures { sheet.new ≡ put sheet.old j f v }
{
    sheet[4 * j as usize + f] = v;
}

#[tactic(auto, unfolding(sheetmodel::specs::Layout::put_record))]
pub fn put_record(sheet: &mut [u32], j: u32, r: Record)
    requires { 4 * j + 3 < length sheet.old }
    ensures { sheet.new ≡ put_record sheet.old j r.value r.next r.link r.tag }
{
    put_field(sheet, j, VALUE, r.value);
    put_field(sheet, j, NEXT, r.next);
    put_field(sheet, j, LINK, r.link);
    put_field(sheet, j, TAG, r.tag);
}
