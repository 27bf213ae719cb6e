//! A message of the gateway, but for its header.

ghost use Rattle.std.specs.Prelude.{◌≡◌};
ghost use Rattle.session_core.specs.Said.{ref_msg_type};

use order_meaning::Bytes;

/// How many bytes of a MsgType(35) are repeated in RefMsgType(372) (own).
pub const MAX_REF_MSG_TYPE: usize = 8;

/// A message as it is said: the type, what stands behind the standard header, and what is done
/// where messages are sent again.
#[derive(Debug, Drop)]
pub struct Said {
    /// MsgType(35).
    pub msg_type: Bytes,
    /// The fields behind the header, each as its tag, `=`, its value and SOH.
    pub content: Bytes,
    /// A gap fill stands for it where messages are sent again. It does not for a refusal.
    pub admin: bool,
}

/// RefMsgType(372) of a type: its first bytes, at most [`MAX_REF_MSG_TYPE`].
pub fn ref_msg_type(msg_type: &[u8]) -> &[u8]
    ensures { result.now ≡ ref_msg_type msg_type.now }
{
    &msg_type[..msg_type.len().min(MAX_REF_MSG_TYPE)]
}
