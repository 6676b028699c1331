// The net of the sample, its numbers and its cycles. The nodes are a_0, then r_0, R_0_0 and R_1_0, then the pad p_0;
// the gates are those of the element of R at w, and of both elements of R where w is written to one of them.
use crate::sample::sample;
use lola_flat::sample_is_formed;
use lola_lower::lower;
use lola_net::{Net, cycle};
use std::alloc::Global;
use std::test::Fail;
use veri_text::write;

/// The net of the sample.
fn net(alloc: Global) -> Result<Net, Fail> {
    sample_is_formed();
    let flat = sample(alloc)?;
    Ok(lower(alloc, &flat).map_err(|_| "not lowered")?)
}

#[test]
fn nodes_are_counted(rt: HostRuntime) -> Result<(), Fail> {
    let net = net(rt.alloc())?;
    assert_eq!(rt; net.free_count(), 1);
    assert_eq!(rt; net.latch_count(), 3);
    assert_eq!(rt; net.pad_count(), 1);
    assert_eq!(rt; net.nodes.items().len(), 14);
    assert_eq!(rt; net.outputs.items().len(), 0);
    Ok(())
}

#[test]
fn text_of_the_sample(rt: HostRuntime) -> Result<(), Fail> {
    let alloc = rt.alloc();
    let net = net(alloc)?;
    let text = b"module S(c_0,a_0,p_0);\ninput c_0;\ninput a_0;\ninout p_0;\n\
wire _6;\nwire _7;\nwire _8;\nwire _9;\nwire _10;\nwire _11;\nwire _12;\nwire _13;\nwire _14;\n\
reg r_0;\nreg R_0_0;\nreg R_1_0;\n\
assign p_0 = a_0 ? 1'bz : r_0;\nassign _6 = R_1_0 & p_0;\nassign _7 = R_0_0 & ~p_0;\nassign _8 = ~_6 & ~_7;\n\
assign _9 = ~a_0 & p_0;\nassign _10 = a_0 & R_0_0;\nassign _11 = ~_9 & ~_10;\n\
assign _12 = a_0 & p_0;\nassign _13 = ~a_0 & R_1_0;\nassign _14 = ~_12 & ~_13;\n\
always @(posedge c_0) begin\nr_0 <= ~_8;\nR_0_0 <= ~_11;\nR_1_0 <= ~_14;\nend\nendmodule\n";
    assert_eq!(rt; write(alloc, &net)?.as_slice(), text.as_slice());
    Ok(())
}

// Where a is 0 the pad carries r and is written to R[0]; where a is 1 it carries what comes from outside, which is
// written to R[1].
#[test]
fn cycles_of_the_sample(rt: HostRuntime) -> Result<(), Fail> {
    let alloc = rt.alloc();
    let net = net(alloc)?;
    let driven = cycle(alloc, &net, &[true, false, true], &[false], &[false])?;
    assert_eq!(rt; driven.outputs.items().len(), 0);
    assert_eq!(rt; driven.pads.items(), [true].as_slice());
    assert_eq!(rt; driven.next.items(), [true, true, true].as_slice());
    let free = cycle(alloc, &net, &[true, false, true], &[true], &[false])?;
    assert_eq!(rt; free.pads.items(), [false].as_slice());
    assert_eq!(rt; free.next.items(), [false, false, false].as_slice());
    Ok(())
}
