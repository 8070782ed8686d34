//! The encodings of a file of the host.

/// How the bytes of a file of the host give the words of a file.
#[derive(Clone, Copy, Debug, PartialEq, Eq)]
pub enum Encoding {
    /// Characters: each byte is one, and five of them make a word. The nulls of a word are no characters.
    Characters,
    /// Words: eight bytes make one, the most significant first.
    Words,
    /// Bytes of eight bits: four make a word, whose low four bits are 0, except in the last word, where they give the
    /// number of its bytes that count.
    Octets,
}
