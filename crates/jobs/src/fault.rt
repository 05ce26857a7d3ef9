// What can be wrong with the bytes of a job or an outcome.
#[derive(Clone, Copy, Debug, PartialEq, Eq)]
pub enum JobFault {
    // The bytes are not as many as the kind of job has.
    WrongWidth,
    // The first byte of a card job names no action.
    UnknownAction,
}
