//! What holds of the chains of a journal that grows. The law is a contract: its function does
//! nothing.

ghost use Rattle.gateway_core.specs.State.{ChainsGoOn};

/// Behind one more entry a journal has the chains that it had, and the request that the entry
/// forwards, where its id is new.
pub fn chains_go_on()
    ensures { ChainsGoOn }
{}
