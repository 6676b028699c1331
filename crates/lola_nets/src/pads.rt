// A register that toggles, and a pad that is let go: cycles and text.
use crate::makes::{both, input, literals, names, outputs, pad, register};
use lola_bits::Name;
use lola_gate::Gates;
use lola_net::{Net, cycle};
use std::alloc::Global;
use std::test::Fail;
use veri_text::write;

/// The net with the register q, which turns where t is 1, and the pad p, which carries q where z is 0.
fn net(alloc: Global) -> Result<Net, Fail> {
    let mut gates = Gates::new(alloc);
    let t = input(alloc, &mut gates, "t_0")?;
    let z = input(alloc, &mut gates, "z_0")?;
    let q = register(alloc, &mut gates, "q_0")?;
    let p = pad(alloc, &mut gates, "p_0", q, z)?;
    let two = both(&mut gates, t, q)?;
    let none = both(&mut gates, t ^ 1, q ^ 1)?;
    let next = both(&mut gates, two ^ 1, none ^ 1)?;
    let name = Name::new(alloc, "top")?;
    let clock = Name::new(alloc, "clk_0")?;
    let ports = names(alloc, &["clk_0", "t_0", "p_0", "z_0", "o_0", "one_0"])?;
    let literals = literals(alloc, &[next])?;
    let shown = outputs(alloc, &[("o_0", p ^ 1), ("one_0", 1)])?;
    Ok(gates.into_net(alloc, name, Some(clock), ports, literals, shown)?)
}

#[test]
fn counts(rt: HostRuntime) -> Result<(), Fail> {
    let net = net(rt.alloc())?;
    assert_eq!(rt; net.free_count(), 2);
    assert_eq!(rt; net.latch_count(), 1);
    assert_eq!(rt; net.pad_count(), 1);
    Ok(())
}

#[test]
fn cycles(rt: HostRuntime) -> Result<(), Fail> {
    let alloc = rt.alloc();
    let net = net(alloc)?;
    let driven = cycle(alloc, &net, &[true], &[true, false], &[false])?;
    assert_eq!(rt; driven.pads.items(), [true].as_slice());
    assert_eq!(rt; driven.outputs.items(), [false, true].as_slice());
    assert_eq!(rt; driven.next.items(), [false].as_slice());
    let free = cycle(alloc, &net, &[true], &[false, true], &[false])?;
    assert_eq!(rt; free.pads.items(), [false].as_slice());
    assert_eq!(rt; free.outputs.items(), [true, true].as_slice());
    assert_eq!(rt; free.next.items(), [true].as_slice());
    Ok(())
}

#[test]
fn text(rt: HostRuntime) -> Result<(), Fail> {
    let alloc = rt.alloc();
    let net = net(alloc)?;
    let text =
        b"module top_(clk_0,t_0,p_0,z_0,o_0,one_0);\ninput clk_0;\ninput t_0;\ninout p_0;\ninput z_0;\noutput o_0;\noutput one_0;\n\
wire _5;\nwire _6;\nwire _7;\nreg q_0;\n\
assign p_0 = z_0 ? 1'bz : q_0;\nassign _5 = t_0 & q_0;\nassign _6 = ~t_0 & ~q_0;\nassign _7 = ~_5 & ~_6;\n\
assign o_0 = ~p_0;\nassign one_0 = 1'b1;\n\
always @(posedge clk_0) begin\nq_0 <= _7;\nend\nendmodule\n";
    assert_eq!(rt; write(alloc, &net)?.as_slice(), text.as_slice());
    Ok(())
}
