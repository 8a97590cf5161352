use sp_word::{Reply, Word, decide};

#[test]
fn vectors_of_28_bits(rt: HostRuntime) {
    let bits = [
        Word::<28>::pack(0, 0).bits(),
        Word::<28>::pack(3, 1).bits(),
        Word::<28>::pack(5, 2).bits(),
        Word::<28>::pack(68_719_476_734, 268_435_454).bits(),
        Word::<28>::unreached().bits(),
    ];
    let decimal = [
        0,
        805_306_369,
        1_342_177_282,
        18_446_744_073_441_116_158,
        18_446_744_073_709_551_615,
    ];
    let hexadecimal = [
        0x0000_0000_0000_0000,
        0x0000_0000_3000_0001,
        0x0000_0000_5000_0002,
        0xffff_ffff_efff_fffe,
        0xffff_ffff_ffff_ffff,
    ];
    assert!(rt; bits == decimal && bits == hexadecimal);
}

#[test]
fn vectors_of_other_layouts(rt: HostRuntime) {
    let bits = [
        Word::<20>::pack(5, 2).bits(),
        Word::<24>::pack(5, 2).bits(),
        Word::<32>::pack(5, 2).bits(),
        Word::<32>::pack(4_294_967_294, 4_294_967_294).bits(),
    ];
    let want = [
        0x0000_0000_0050_0002,
        0x0000_0000_0500_0002,
        0x0000_0005_0000_0002,
        0xffff_fffe_ffff_fffe,
    ];
    assert!(rt; bits == want);
}

#[test]
fn ranges_of_the_layouts(rt: HostRuntime) {
    let dists = [
        Word::<20>::max_dist(),
        Word::<24>::max_dist(),
        Word::<28>::max_dist(),
        Word::<32>::max_dist(),
    ];
    let preds = [
        Word::<20>::max_pred(),
        Word::<24>::max_pred(),
        Word::<28>::max_pred(),
        Word::<32>::max_pred(),
    ];
    let far = [
        17_592_186_044_414,
        1_099_511_627_774,
        68_719_476_734,
        4_294_967_294,
    ];
    assert!(rt; dists == far);
    assert!(rt; preds == [1_048_574, 16_777_214, 268_435_454, 4_294_967_294]);
}

#[test]
fn bits_that_are_words(rt: HostRuntime) {
    for bits in [0, 805_306_369, 0xffff_ffff_efff_fffe, u64::MAX] {
        let word = Word::<28>::of_bits(bits);
        assert!(rt; word.map(|word| word.bits()) == Some(bits), "{bits}");
    }
    // The lower 28 bits are all ones, then the upper 36.
    for bits in [
        0x0fff_ffff,
        0x0000_0000_3fff_ffff,
        0xffff_ffff_f000_0000,
        0xffff_ffff_ffff_fffe,
    ] {
        assert!(rt; Word::<28>::of_bits(bits).is_none(), "{bits}");
    }
}

#[test]
fn replies(rt: HostRuntime) {
    let none = Word::<28>::unreached();
    let held = Word::<28>::pack(5, 3);
    let replies = [
        decide(none, Word::pack(68_719_476_734, 268_435_454)),
        decide(held, Word::pack(5, 2)),
        decide(held, Word::pack(5, 3)),
        decide(held, Word::pack(6, 1)),
        decide(held, Word::pack(4, 9)),
    ];
    let want = [
        Reply::Shorter,
        Reply::SmallerPred,
        Reply::Kept,
        Reply::Kept,
        Reply::Shorter,
    ];
    assert!(rt; replies == want);
}
