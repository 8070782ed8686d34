//! The parts of a record, and its bytes.
ghost use Rattle.std.specs.Prelude.{◌≡◌};
ghost use Rattle.wire.specs.Records.{record_bytes, FitsRecord};

/// The number of bytes of a record.
pub const HEADER_BYTES: usize = 16;

/// The parts of a record. Its numbers have their highest byte first, as the words of an image do.
#[derive(Clone, Copy, Debug, PartialEq, Eq)]
pub struct Header {
    /// Byte 0: the kind.
    pub kind: u8,
    /// Byte 1: for a call, its operation code.
    pub code: u8,
    /// Byte 2: the number of a job.
    pub job: u8,
    /// Byte 3: the number of a channel.
    pub channel: u8,
    /// Bytes 4 to 7: an address, or another number that a call names.
    pub number: u32,
    /// Bytes 8 to 11: the number of words to examine, or a date and a minute.
    pub detail: u32,
    /// Bytes 12 to 15: the number of words of eight bytes that follow.
    pub count: u32,
}

impl Header {
    /// Parses the record of these bytes.
    pub fn from_bytes(bytes: &[u8; HEADER_BYTES]) -> Header
        ensures spelled { record_bytes result ≡ bytes.now }
        ensures fits { FitsRecord result }
    {
        Header {
            kind: bytes[0],
            code: bytes[1],
            job: bytes[2],
            channel: bytes[3],
            number: u32::from_be_bytes([bytes[4], bytes[5], bytes[6], bytes[7]]),
            detail: u32::from_be_bytes([bytes[8], bytes[9], bytes[10], bytes[11]]),
            count: u32::from_be_bytes([bytes[12], bytes[13], bytes[14], bytes[15]]),
        }
    }

    /// Returns the bytes of the record.
    pub fn to_bytes(self) -> [u8; HEADER_BYTES]
        ensures { result ≡ record_bytes self }
    {
        let [a, b, c, d] = self.number.to_be_bytes();
        let [e, f, g, h] = self.detail.to_be_bytes();
        let [i, j, k, l] = self.count.to_be_bytes();
        [
            self.kind,
            self.code,
            self.job,
            self.channel,
            a,
            b,
            c,
            d,
            e,
            f,
            g,
            h,
            i,
            j,
            k,
            l,
        ]
    }
}
