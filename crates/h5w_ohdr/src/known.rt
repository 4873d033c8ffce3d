//! The types of messages that are known here, and what is refused because it is not.
ghost use Rattle.std.specs.Prelude.{◌≡◌, MatchOption, Ok, Err};
ghost use Rattle.h5w_model.specs.Headers.{is_known, first_unknown, all_known, unknown_for_writing};
ghost use Rattle.h5w_model.specs.declared.refusal.HeaderError.TheVariants.{Unknown};

use crate::kind;
use crate::list::Msgs;
use h5w_model::{HeaderError, Msg};

/// The types that are known here.
const KNOWN: [u8; 17] = [
    kind::NIL,
    kind::DATASPACE,
    kind::LINK_INFO,
    kind::DATATYPE,
    kind::OLD_FILL,
    kind::FILL,
    kind::LINK,
    kind::LAYOUT,
    kind::GROUP_INFO,
    kind::FILTERS,
    kind::ATTRIBUTE,
    kind::COMMENT,
    kind::OLD_TIME,
    kind::CONTINUATION,
    kind::TIME,
    kind::ATTRIBUTE_INFO,
    kind::REFERENCE_COUNT,
];

/// A message that is not known is refused.
const FAIL: u8 = 0x80;

/// A message that is not known is refused where the file is open for writing.
const FAIL_FOR_WRITING: u8 = 0x08;

/// Whether this type is known here.
fn is_known(kind: u8) -> bool
    ensures { result ≡ is_known kind }
{
    KNOWN.contains(&kind)
}

/// The type of the first message that is not known here and has this flag.
fn first_unknown(list: &[Msg], bit: u8) -> Option<u8>
    ensures { result ≡ first_unknown bit list.now }
{
    list.iter()
        .find(|m| !is_known(m.kind) && m.flags & bit != 0)
        .map(|m| m.kind)
}

/// These messages, unless one of them is refused.
pub fn all_known(msgs: Msgs) -> Result<Msgs, HeaderError>
    ensures { result ≡ all_known msgs }
{
    match first_unknown(msgs.as_slice(), FAIL) {
        Some(kind) => Err(HeaderError::Unknown { kind }),
        None => Ok(msgs),
    }
}

impl Msgs {
    /// Whether a writer may go on, or the first message that is not known here and asks writers not to.
    pub fn for_writing(&self) -> Result<(), HeaderError>
        ensures { MatchOption (unknown_for_writing self.now) (result ≡ Ok tt) (λ kind. result ≡ Err (Unknown kind)) }
    {
        match first_unknown(self.as_slice(), FAIL_FOR_WRITING) {
            Some(kind) => Err(HeaderError::Unknown { kind }),
            None => Ok(()),
        }
    }
}
