ghost use Rattle.std.specs.Prelude.{◌≡◌};
ghost use Rattle.deliveries.specs.Status.{exit_number_of, name_of};

/// How a call of the program ended.
#[derive(Clone, Copy, PartialEq, Eq, Debug)]
pub enum Status {
    Done,
    Refused,
    Usage,
    ReadFailed,
    WriteFailed,
    NoMemory,
    PrintFailed,
}

/// The number with which the process exits.
pub fn exit_number(status: Status) -> u8
    ensures { result ≡ exit_number_of status }
{
    status as u8
}

/// The status as it is printed on standard error.
pub fn status_name(status: Status) -> &'static str
    ensures { result.now ≡ name_of status }
{
    match status {
        Status::Done => "Done",
        Status::Refused => "Refused",
        Status::Usage => "Usage",
        Status::ReadFailed => "ReadFailed",
        Status::WriteFailed => "WriteFailed",
        Status::NoMemory => "NoMemory",
        Status::PrintFailed => "PrintFailed",
    }
}
