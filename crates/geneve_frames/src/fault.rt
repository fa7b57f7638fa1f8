//! Why a frame could not be read.

use thiserror::Error;

/// What is wrong with a frame: the first of these, in this order, that its bytes show.
#[derive(Clone, Copy, Debug, PartialEq, Eq, Error)]
pub enum GeneveFault {
    /// The frame has fewer than the eight bytes of a base header (RFC 8926, section 3.4).
    #[error("the base header is cut")]
    Short,
    /// The version isn't 0.
    #[error("the version isn't 0")]
    Version,
    /// The O bit says that the frame is for control.
    #[error("it is a control frame")]
    Control,
    /// The protocol isn't Ethernet, 0x6558.
    #[error("the inner protocol isn't Ethernet")]
    Protocol,
    /// The options pass the frame's end, or an option passes the end of the options (RFC 8926, section 3.5).
    #[error("the options are cut")]
    OptionsCut,
    /// Another option than OVN's has a type with the highest bit, so that it must not be passed over.
    #[error("an unknown option is critical")]
    UnknownCritical,
    /// No option has OVN's class 0x0102, its type 0x80 and four bytes of data.
    #[error("OVN's option is missing")]
    NoOvnOption,
    /// OVN's option is there more than once.
    #[error("OVN's option is there twice")]
    TwoOvnOptions,
}
