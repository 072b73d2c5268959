//! Texts that are known from outside, and what is written and fails in tests.

use std::io;

/// The 20 bytes of a known text.
pub const PROGRAM: [u8; 20] = [
    0xff, 0x1e, 0x76, 0xe8, 0x19, 0x91, 0x96, 0xd4, 0x54, 0x94, 0x1c, 0x45, 0xd1, 0xb3, 0xa3, 0x23,
    0xf1, 0x43, 0x3b, 0xd6,
];

/// The text of these under `test` by Bech32, and in upper case.
pub const TEXT: &str = "test1lu08d6qejxtdg4y5r3zarvary0c5xw7kw79nnx";

pub const UPPER_TEXT: &str = "TEST1LU08D6QEJXTDG4Y5R3ZARVARY0C5XW7KW79NNX";

/// The program of the first address in BIP-173's examples.
pub const ADDRESS_PROGRAM: [u8; 20] = [
    0x75, 0x1e, 0x76, 0xe8, 0x19, 0x91, 0x96, 0xd4, 0x54, 0x94, 0x1c, 0x45, 0xd1, 0xb3, 0xa3, 0x23,
    0xf1, 0x43, 0x3b, 0xd6,
];

/// The human-readable part whose address of 40 bytes would have 91 characters.
pub const LONG_PART: &str = "anhrpthatis19charsx";

/// A human-readable part of 83 characters.
pub const LONGEST_PART: &str =
    "an83characterlonghumanreadablepartthatcontainsthetheexcludedcharactersbioandnumber1";

/// As many bytes as the code has room for behind a human-readable part of four characters.
pub fn data() -> [u8; 632] {
    [0xa5; 632]
}

/// Each kind of error.
pub fn kinds() -> [io::ErrorKind; 42] {
    [
        io::ErrorKind::NotFound,
        io::ErrorKind::PermissionDenied,
        io::ErrorKind::ConnectionRefused,
        io::ErrorKind::ConnectionReset,
        io::ErrorKind::HostUnreachable,
        io::ErrorKind::NetworkUnreachable,
        io::ErrorKind::ConnectionAborted,
        io::ErrorKind::NotConnected,
        io::ErrorKind::AddrInUse,
        io::ErrorKind::AddrNotAvailable,
        io::ErrorKind::NetworkDown,
        io::ErrorKind::BrokenPipe,
        io::ErrorKind::AlreadyExists,
        io::ErrorKind::WouldBlock,
        io::ErrorKind::NotADirectory,
        io::ErrorKind::IsADirectory,
        io::ErrorKind::DirectoryNotEmpty,
        io::ErrorKind::ReadOnlyFilesystem,
        io::ErrorKind::FilesystemLoop,
        io::ErrorKind::StaleNetworkFileHandle,
        io::ErrorKind::InvalidInput,
        io::ErrorKind::InvalidData,
        io::ErrorKind::TimedOut,
        io::ErrorKind::WriteZero,
        io::ErrorKind::StorageFull,
        io::ErrorKind::NotSeekable,
        io::ErrorKind::QuotaExceeded,
        io::ErrorKind::FileTooLarge,
        io::ErrorKind::ResourceBusy,
        io::ErrorKind::ExecutableFileBusy,
        io::ErrorKind::Deadlock,
        io::ErrorKind::CrossesDevices,
        io::ErrorKind::TooManyLinks,
        io::ErrorKind::InvalidFilename,
        io::ErrorKind::ArgumentListTooLong,
        io::ErrorKind::Interrupted,
        io::ErrorKind::Unsupported,
        io::ErrorKind::UnexpectedEof,
        io::ErrorKind::OutOfMemory,
        io::ErrorKind::InProgress,
        io::ErrorKind::Other,
        io::ErrorKind::Uncategorized,
    ]
}
