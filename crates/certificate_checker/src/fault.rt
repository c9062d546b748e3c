use thiserror::Error;

/// Why bytes spell no certificate: the first byte that breaks the grammar. Places stop at 2^32 - 1.
#[derive(Clone, Copy, Debug, Error)]
pub enum CertFault {
    /// A rule is broken before the trees.
    #[error("no head of a certificate at {at}")]
    BadHead { at: u32 },
    /// The bytes end where one is needed, at their length.
    #[error("the certificate ends at {at}")]
    Truncated { at: u32 },
    /// A tag is unknown, or a number of a tree breaks its rule, at its first byte.
    #[error("no node at {at}")]
    BadNode { at: u32 },
    /// A node lies deeper than 4,096.
    #[error("the node at {at} is too deep")]
    TooDeep { at: u32 },
    /// A byte stands behind the end.
    #[error("a byte behind the end at {at}")]
    Trailing { at: u32 },
    /// No memory was left.
    #[error("out of memory")]
    Memory,
}
