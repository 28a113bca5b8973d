use cl_rpc::How;

/// An entry of the journal: the n-th message was taken, the n-th header was read, or the message of this number got
/// its reply or its notification. `mark` is the length of the journal when the state that the reply rests on was
/// taken. Numbers are from 0.
#[derive(Clone, Copy, PartialEq, Eq)]
pub enum Entry {
    In(u64),
    Load(u64),
    Reply { message: u64, mark: u64, how: How },
    Notify { message: u64, mark: u64 },
}
