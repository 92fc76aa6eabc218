// An entry of a file: the file is read, the entry looked up, its value asked for.
ghost use Rattle.std.specs.Prelude.{◌≡◌, ◌≤◌, length};
ghost use Rattle.lookup.specs.Decoding.{lent_of};
ghost use Rattle.claims.specs.LookUps.{Gets};
ghost use Rattle.claims.specs.Steps.{Asks};
ghost use Rattle.claims.specs.declared.look_up.LookUpError.TheVariants.{NotRead, NotFound};

use lookup::{Lent, Which};

// An entry that was found: its index, and the length of its value.
#[derive(Clone, Copy, Debug, PartialEq, Eq)]
pub struct Found {
    pub index: usize,
    pub length: usize,
}

// Why none was: the file is refused, or it has no such entry.
#[derive(Clone, Copy, Debug, PartialEq, Eq)]
pub enum LookUpError {
    NotRead(table::Error),
    NotFound(lookup::Error),
}

impl From<table::Error> for LookUpError {
    ghost from_gives = { λ e r. r ≡ NotRead e };

    fn from(e: table::Error) -> LookUpError {
        LookUpError::NotRead(e)
    }
}

impl From<lookup::Error> for LookUpError {
    ghost from_gives = { λ e r. r ≡ NotFound e };

    fn from(e: lookup::Error) -> LookUpError {
        LookUpError::NotFound(e)
    }
}

// Looks an entry up in a table, and puts its value at the front of `out`.
fn find_then_value(
    lent: Lent,
    section: &[u8],
    key: &[u8],
    which: Which,
    out: &mut [u8],
) -> Result<Found, LookUpError>
    requires { length lent.text.now ≤ length out.old }
    ensures { Asks (lent_of lent.entry) which section.now key.now out.old result out.new }
{
    let index = lent.find(section, key, which)?;
    let value = lent.value(index);
    lines::copy_into(value, out, 0);
    Ok(Found {
        index,
        length: value.len(),
    })
}

// The first or the last entry of a file with this section name and key: its value at the front of `out`. The rest of it
// stays, and a refused call changes nothing. An `out` of fewer than 65,535 bytes is refused with 1. It is no question of
// the rules, which copy nothing: it makes the three calls, and has as its promise what the rules say of them together.
pub fn read_then_find(
    file: &[u8],
    section: &[u8],
    key: &[u8],
    which: Which,
    out: &mut [u8],
) -> Result<Found, LookUpError>
    ensures { Gets file.now which section.now key.now out.old result out.new }
{
    if out.len() < 65535 {
        return Err(LookUpError::NotRead(table::Error::File(lines::Error::ShortBuffer)));
    }
    let mut text = [0u8; 65535];
    let mut sections = [0usize; 128];
    let mut entries = [0usize; 2560];
    let counts = table::read(file, &mut text, &mut sections, &mut entries)?;
    let lent = Lent {
        text: &text,
        sections: &sections,
        section_count: counts.sections,
        entries: &entries,
        entry_count: counts.entries,
    };
    find_then_value(lent, section, key, which, out)
}
