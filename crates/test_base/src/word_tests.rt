//! Tests of words and what is written in them, and of rights.
use protect::{Act, DirectoryAct, dir_right, right};
use std::test::Fail;
use words36::{
    BLOCK_WORDS, Day, Half, Moment, Ppn, Word, WordError, block_from_bytes, block_to_bytes,
    date_of, day_of, pack_ascii, pack_octets, sixbit_of, text_of, unpack_ascii, unpack_octets,
};

#[test]
fn texts_in_words(rt: HostRuntime) -> Result<(), Fail> {
    for (text, shown, bits) in [
        ("FILSER", "FILSER", 0o465154634562),
        ("LOG", "LOG   ", 0o545747000000),
        ("RIB", "RIB   ", 0o625142000000),
        ("FOO", "FOO   ", 0o465757000000),
        ("TXT", "TXT   ", 0o647064000000),
    ] {
        let word = sixbit_of(text.as_bytes())?;
        assert_eq!(rt; word.bits(), bits, "of {text}");
        assert_eq!(rt; text_of(word).as_slice(), shown.as_bytes(), "of {text}");
    }
    let words = pack_ascii(rt.alloc(), b"HELLO\r\n")?;
    assert_eq!(rt; words.len(), 2);
    assert_eq!(rt; words[0].bits(), 0o442131446236);
    assert_eq!(rt; words[1].bits(), 0o064240000000);
    let text = unpack_ascii(rt.alloc(), &words)?;
    assert_eq!(rt; text.as_slice(), b"HELLO\r\n\0\0\0".as_slice());
    Ok(())
}

#[test]
fn octets_in_words(rt: HostRuntime) -> Result<(), Fail> {
    for (bytes, words) in [
        (b"".as_slice(), [].as_slice()),
        (b"A", [0o202000000001].as_slice()),
        (b"ABC", [0o202411030003].as_slice()),
        (b"ABCD", [0o202411032104].as_slice()),
        (b"ABCD\xff", [0o202411032100, 0o776000000001].as_slice()),
    ] {
        let packed = pack_octets(rt.alloc(), bytes)?;
        assert_eq!(rt; packed.len(), words.len());
        for (word, bits) in packed.iter().zip(words) {
            assert_eq!(rt; word.bits(), *bits);
        }
        let read = unpack_octets(rt.alloc(), &packed)?.ok_or("no bytes")?;
        assert_eq!(rt; read.as_slice(), bytes);
    }
    Ok(())
}

#[test]
fn bytes_of_blocks_and_numbers_of_words(rt: HostRuntime) -> Result<(), Fail> {
    let mut block = [Word::ZERO; BLOCK_WORDS];
    block[0] = Word::from_bits(0o442131446236);
    let mut bytes = block_to_bytes(&block);
    assert_eq!(rt;
        &bytes[..8],
        [0x00, 0x00, 0x00, 0x09, 0x11, 0x66, 0x4c, 0x9e].as_slice()
    );
    assert_eq!(rt; block_from_bytes(&bytes)?, block);
    bytes[8 * 3] = 0x80;
    let bad = WordError::BadWord(3);
    assert_eq!(rt; block_from_bytes(&bytes), Err(bad));
    assert_eq!(rt; bad.to_string(rt.alloc())?.as_str(), "bad word 3");
    let word = Word::new(0o123456_654321).ok_or("no word")?;
    assert_eq!(rt; word.left().bits(), 0o123456);
    assert_eq!(rt; word.right().bits(), 0o654321);
    assert_eq!(rt; Word::from_halves(word.left(), word.right()), word);
    assert_eq!(rt; Word::from(Half::from_bits(0o654321)).bits(), 0o654321);
    assert_eq!(rt; (Word::new(1 << 36), Half::new(1 << 18)), (None, None));
    Ok(())
}

#[test]
fn dates_and_moments(rt: HostRuntime) -> Result<(), Fail> {
    for (number, year, month, day) in [(0, 1964, 1, 1), (4095, 1975, 1, 4), (32767, 2052, 2, 1)] {
        assert_eq!(rt; date_of(year, month, day)?, number);
        assert_eq!(rt; day_of(number)?, Day { year, month, day });
        let moment = Moment::new(number, 1439)?;
        assert_eq!(rt; (moment.date, moment.minute), (number, 1439));
    }
    // 31 February has a number, the one before 1 March's.
    assert_eq!(rt; date_of(1975, 2, 31)? + 1, date_of(1975, 3, 1)?);
    Ok(())
}

/// Digits are those of the owner, of one of the owner's project, and of all others; [1,2] may do everything.
#[test]
fn owners_and_rights(rt: HostRuntime) -> Result<(), Fail> {
    let owner = Ppn::new(0o10, 0o20).ok_or("no PPN")?;
    assert_eq!(rt; owner.to_string(rt.alloc())?.as_str(), "[10,20]");
    assert_eq!(rt; owner.word().bits(), 0o000010_000020);
    assert_eq!(rt; Ppn::from_word(owner.word()), Some(owner));
    for (project, programmer, file, append, directory) in [
        (0o10, 0o20, true, true, true),
        (0o10, 0o30, false, true, true),
        (0o11, 0o5, false, false, false),
        (1, 2, true, true, true),
    ] {
        let who = Ppn::new(project, programmer).ok_or("no PPN")?;
        assert_eq!(rt; right(0o057, who, owner, Act::PROTECT), file);
        assert_eq!(rt; right(0o047, who, owner, Act::APPEND), append);
        assert_eq!(rt;
            dir_right(0o775, who, owner, DirectoryAct::Create),
            directory
        );
    }
    Ok(())
}
