use thiserror::Error;

/// Why words aren't read.
#[derive(Debug, Drop, PartialEq, Eq, Error)]
pub enum WordFault {
    /// The word with this number, counted from 1, is the first that breaks a rule. Where none does and something
    /// required is missing, it is the number of words plus 1.
    #[error("word {word} breaks a rule")]
    Usage { word: u64 },
    /// There is no memory for what the words say.
    #[error("there is no memory for the words")]
    NoMemory,
}
