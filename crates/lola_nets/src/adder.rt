// A full adder of two half adders: its gates, their values, its cycle and its text.
use crate::makes::{both, input, literals, names, outputs, values};
use lola_bits::Name;
use lola_gate::Gates;
use lola_net::{Net, cycle};
use std::alloc::Global;
use std::test::Fail;
use veri_text::write;

/// The gates of the sum and the carry of x, y and z, and the literals of both.
fn adder(alloc: Global) -> Result<(Gates, u32, u32), Fail> {
    let mut gates = Gates::new(alloc);
    let x = input(alloc, &mut gates, "x_0")?;
    let y = input(alloc, &mut gates, "y_0")?;
    let z = input(alloc, &mut gates, "z_0")?;
    let first = both(&mut gates, x, y)?;
    let neither = both(&mut gates, x ^ 1, y ^ 1)?;
    let half = both(&mut gates, first ^ 1, neither ^ 1)?;
    let second = both(&mut gates, z, half)?;
    let none = both(&mut gates, z ^ 1, half ^ 1)?;
    let sum = both(&mut gates, second ^ 1, none ^ 1)?;
    let carry = both(&mut gates, second ^ 1, first ^ 1)?;
    Ok((gates, sum, carry ^ 1))
}

/// The net of the adder.
fn net(alloc: Global) -> Result<Net, Fail> {
    let (gates, sum, carry) = adder(alloc)?;
    let name = Name::new(alloc, "FA")?;
    let ports = names(alloc, &["x_0", "y_0", "z_0", "s_0", "c_0"])?;
    let next = literals(alloc, &[])?;
    let shown = outputs(alloc, &[("s_0", sum), ("c_0", carry)])?;
    Ok(gates.into_net(alloc, name, None, ports, next, shown)?)
}

#[test]
fn gates_have_their_numbers(rt: HostRuntime) -> Result<(), Fail> {
    let (gates, sum, carry) = adder(rt.alloc())?;
    assert_eq!(rt; gates.node_count(), 10);
    assert_eq!(rt; gates.free_count(), 3);
    assert_eq!(rt; sum, 18);
    assert_eq!(rt; carry, 21);
    assert_eq!(rt; gates.gate(3), None);
    assert_eq!(rt; gates.gate(4), Some((2, 4)));
    assert_eq!(rt; gates.gate(6), Some((9, 11)));
    assert_eq!(rt; gates.gate(10), Some((9, 15)));
    assert_eq!(rt; gates.gate(11), None);
    Ok(())
}

#[test]
fn gates_are_shared_and_simplified(rt: HostRuntime) -> Result<(), Fail> {
    let (mut gates, _, _) = adder(rt.alloc())?;
    assert_eq!(rt; both(&mut gates, 4, 2)?, 8);
    assert_eq!(rt; both(&mut gates, 0, 4)?, 0);
    assert_eq!(rt; both(&mut gates, 4, 1)?, 4);
    assert_eq!(rt; both(&mut gates, 5, 5)?, 5);
    assert_eq!(rt; both(&mut gates, 5, 4)?, 0);
    assert_eq!(rt; gates.node_count(), 10);
    assert_eq!(rt; both(&mut gates, 2, 6)?, 22);
    Ok(())
}

#[test]
fn values_on_all_inputs(rt: HostRuntime) -> Result<(), Fail> {
    let alloc = rt.alloc();
    let (gates, _, _) = adder(alloc)?;
    for number in 0..8u32 {
        let (x, y, z) = (number % 2 == 1, number / 2 % 2 == 1, number / 4 == 1);
        let all = values(alloc, &gates, &[x, y, z])?;
        assert_eq!(rt; all.len(), 10);
        assert_eq!(rt; all[8], x ^ y ^ z);
        assert_eq!(rt; all[9], !((x & y) | (z & (x ^ y))));
    }
    Ok(())
}

#[test]
fn cycles_on_all_inputs(rt: HostRuntime) -> Result<(), Fail> {
    let alloc = rt.alloc();
    let net = net(alloc)?;
    for number in 0..8u32 {
        let (x, y, z) = (number % 2 == 1, number / 2 % 2 == 1, number / 4 == 1);
        let shown = cycle(alloc, &net, &[], &[x, y, z], &[])?;
        let sum = x ^ y ^ z;
        let carry = (x & y) | (z & (x ^ y));
        assert_eq!(rt; shown.outputs.items(), [sum, carry].as_slice());
        assert_eq!(rt; shown.pads.items().len(), 0);
        assert_eq!(rt; shown.next.items().len(), 0);
    }
    Ok(())
}

#[test]
fn text_of_the_adder(rt: HostRuntime) -> Result<(), Fail> {
    let alloc = rt.alloc();
    let net = net(alloc)?;
    let text =
        b"module FA(x_0,y_0,z_0,s_0,c_0);\ninput x_0;\ninput y_0;\ninput z_0;\noutput s_0;\noutput c_0;\n\
wire _4;\nwire _5;\nwire _6;\nwire _7;\nwire _8;\nwire _9;\nwire _10;\n\
assign _4 = x_0 & y_0;\nassign _5 = ~x_0 & ~y_0;\nassign _6 = ~_4 & ~_5;\nassign _7 = z_0 & _6;\n\
assign _8 = ~z_0 & ~_6;\nassign _9 = ~_7 & ~_8;\nassign _10 = ~_4 & ~_7;\n\
assign s_0 = _9;\nassign c_0 = ~_10;\nendmodule\n";
    assert_eq!(rt; write(alloc, &net)?.as_slice(), text.as_slice());
    Ok(())
}
