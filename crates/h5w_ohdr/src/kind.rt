//! The types of header messages (HDF5 File Format Specification 3.0, "Data Object Header Messages").

/// Nothing: room that was a message.
pub const NIL: u8 = 0x00;

/// The dimensions of a dataset.
pub const DATASPACE: u8 = 0x01;

/// How a group keeps its links.
pub const LINK_INFO: u8 = 0x02;

/// The type of a dataset's elements.
pub const DATATYPE: u8 = 0x03;

/// The fill value in its first form.
pub const OLD_FILL: u8 = 0x04;

/// The fill value.
pub const FILL: u8 = 0x05;

/// A link of a group.
pub const LINK: u8 = 0x06;

/// Where a dataset's chunks are, and how they are indexed.
pub const LAYOUT: u8 = 0x08;

/// How large a group is expected to be.
pub const GROUP_INFO: u8 = 0x0a;

/// The filters that a chunk passes.
pub const FILTERS: u8 = 0x0b;

/// An attribute.
pub const ATTRIBUTE: u8 = 0x0c;

/// A comment on the object.
pub const COMMENT: u8 = 0x0d;

/// When the object was changed last, in its first form.
pub const OLD_TIME: u8 = 0x0e;

/// Where further messages stand.
pub const CONTINUATION: u8 = 0x10;

/// When the object was changed last.
pub const TIME: u8 = 0x12;

/// How the object keeps its attributes.
pub const ATTRIBUTE_INFO: u8 = 0x15;

/// How many links lead to the object.
pub const REFERENCE_COUNT: u8 = 0x16;
