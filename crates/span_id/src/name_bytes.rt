//! Whether bytes are those of a name.
ghost use Rattle.std.specs.Prelude.{◌≡◌};
ghost use Rattle.std.specs.List.{list_all};
ghost use Rattle.span_id.specs.Name.{is_name_byte};

// So many bytes are looked at before a wrong one among them ends the search.
const BLOCK: usize = 8;

/// Whether each byte may stand in a name.
#[inline]
pub(crate) fn are_name_bytes(bytes: &[u8]) -> bool
    ensures { result ≡ list_all is_name_byte bytes.now }
{
    let mut rest = bytes;
    while rest.len() >= BLOCK {
        let (block, behind) = rest.split_at(BLOCK);
        if !are_all_name_bytes(block) {
            return false;
        }
        rest = behind;
    }
    are_all_name_bytes(rest)
}

#[inline(always)]
#[tactic(auto, using(std::proofs::lemmas::List::Folds::list_all_more))]
fn are_all_name_bytes(bytes: &[u8]) -> bool
    ensures { result ≡ list_all is_name_byte bytes.now }
{
    // Not left at the first wrong byte, so that the compiler may look at several at once.
    let mut all = true;
    for &byte in bytes {
        all &= is_name_byte(byte);
    }
    all
}

fn is_name_byte(byte: u8) -> bool
    ensures { result ≡ is_name_byte byte }
{
    IN_NAMES[byte as usize]
}

const YES: bool = true;

const NO: bool = false;

// Whether a byte may stand in a name, for each byte by its number.
static IN_NAMES: [bool; 256] = [
    // control characters
    NO, NO, NO, NO, NO, NO, NO, NO, NO, NO, NO, NO, NO, NO, NO, NO, NO, NO, NO, NO, NO, NO, NO, NO,
    NO, NO, NO, NO, NO, NO, NO, NO,
    // from the blank on
    NO, NO, NO, NO, NO, NO, NO, NO, NO, NO, NO, NO, NO, YES, YES, NO,
    // from `0` on
    YES, YES, YES, YES, YES, YES, YES, YES, YES, YES, NO, NO, NO, NO, NO, NO,
    // from `@` on
    NO, YES, YES, YES, YES, YES, YES, YES, YES, YES, YES, YES, YES, YES, YES, YES,
    // from `P` on
    YES, YES, YES, YES, YES, YES, YES, YES, YES, YES, YES, NO, NO, NO, NO, YES,
    // from the grave accent on
    NO, YES, YES, YES, YES, YES, YES, YES, YES, YES, YES, YES, YES, YES, YES, YES,
    // from `p` on
    YES, YES, YES, YES, YES, YES, YES, YES, YES, YES, YES, NO, NO, NO, NO, NO,
    // no ASCII
    NO, NO, NO, NO, NO, NO, NO, NO, NO, NO, NO, NO, NO, NO, NO, NO, NO, NO, NO, NO, NO, NO, NO, NO,
    NO, NO, NO, NO, NO, NO, NO, NO, NO, NO, NO, NO, NO, NO, NO, NO, NO, NO, NO, NO, NO, NO, NO, NO,
    NO, NO, NO, NO, NO, NO, NO, NO, NO, NO, NO, NO, NO, NO, NO, NO, NO, NO, NO, NO, NO, NO, NO, NO,
    NO, NO, NO, NO, NO, NO, NO, NO, NO, NO, NO, NO, NO, NO, NO, NO, NO, NO, NO, NO, NO, NO, NO, NO,
    NO, NO, NO, NO, NO, NO, NO, NO, NO, NO, NO, NO, NO, NO, NO, NO, NO, NO, NO, NO, NO, NO, NO, NO,
    NO, NO, NO, NO, NO, NO, NO, NO,
];
