// Operators on vectors by their numbers.
use lola_bits::Bits;

#[test]
fn sums_and_differences_come_round(rt: HostRuntime) {
    assert_eq!(&rt; Bits::new(8, 255).add(Bits::new(8, 1)), Bits::new(8, 0));
    assert_eq!(&rt; Bits::new(8, 3).sub(Bits::new(8, 5)), Bits::new(8, 254));
    assert_eq!(&rt; Bits::new(1, 1).add(Bits::new(1, 1)), Bits::new(1, 0));
    let most = 340_282_366_920_938_463_463_374_607_431_768_211_455;
    assert_eq!(&rt;
        Bits::new(128, most).add(Bits::new(128, 2)),
        Bits::new(128, 1)
    );
}

#[test]
fn moves_and_turns(rt: HostRuntime) {
    let x = Bits::new(8, 0b1001_0110);
    assert_eq!(&rt; x.shl(Bits::new(4, 3)), Bits::new(8, 0b1011_0000));
    assert_eq!(&rt; x.shr(Bits::new(4, 3)), Bits::new(8, 0b0001_0010));
    assert_eq!(&rt; x.asr(Bits::new(4, 3)), Bits::new(8, 0b1111_0010));
    assert_eq!(&rt; x.ror(Bits::new(4, 11)), Bits::new(8, 0b1101_0010));
    assert_eq!(&rt; x.shl(Bits::new(4, 8)), Bits::new(8, 0));
    assert_eq!(&rt; x.asr(Bits::new(4, 9)), Bits::new(8, 255));
}

#[test]
fn parts_and_order(rt: HostRuntime) {
    let x = Bits::new(8, 0b1001_0110);
    assert_eq!(&rt; x.slice(6, 2), Bits::new(5, 0b00101));
    assert_eq!(&rt;
        x.concat(Bits::new(4, 0b0001)),
        Bits::new(12, 0b1001_0110_0001)
    );
    assert!(&rt; x.bit(7));
    assert!(&rt; !x.bit(0));
    assert!(&rt; Bits::new(8, 127).less(Bits::new(8, 128)));
    assert!(&rt; !Bits::new(8, 200).less(Bits::new(8, 100)));
    assert_eq!(&rt; x.not(), Bits::new(8, 0b0110_1001));
}
