use crate::call_kind::CallKind;

/// A call that is to fail.
#[derive(Clone, Copy, Debug)]
pub struct FailingCall {
    pub kind: CallKind,
    /// Its number among the calls of its kind, from 1.
    pub number: u64,
}
