// Nets that are read, and what is written of them.
use lola_net::{Net, Node};
use std::alloc::Global;
use std::test::Fail;
use veri_read::{VeriError, read};
use veri_text::write;

/// A text, and the text that is written of its net.
#[derive(Clone, Copy)]
struct Row {
    text: &'static str,
    written: &'static str,
}

/// What a short text is read as.
fn read_short(alloc: Global, text: &str) -> Result<Net, VeriError> {
    if text.len() > 1000 {
        return Err(VeriError::Full);
    }
    read(alloc, text.as_bytes())
}

/// Whether a text is read as a net of which this is written.
fn is_written(alloc: Global, row: &Row) -> bool {
    match read_short(alloc, row.text) {
        Ok(net) => match write(alloc, &net) {
            Ok(text) => text.as_slice() == row.written.as_bytes(),
            Err(_) => false,
        },
        Err(_) => false,
    }
}

/// The number of the first row of whose text another one is written.
fn first_other(alloc: Global, rows: &[Row]) -> Option<usize> {
    rows.iter().position(|row| !is_written(alloc, row))
}

/// The literals of a gate, by its number from 1.
fn gate_at(net: &Net, number: usize) -> Option<(u32, u32)> {
    match net.nodes.items().get(number.saturating_sub(1)) {
        Some(Node::Gate { a, b }) => Some((*a, *b)),
        _ => None,
    }
}

/// A full adder of two half adders.
const ADDER: &str = "module FA(x_0,y_0,z_0,s_0,c_0);\n\
input x_0;\ninput y_0;\ninput z_0;\noutput s_0;\noutput c_0;\n\
wire _4;\nwire _5;\nwire _6;\nwire _7;\nwire _8;\nwire _9;\nwire _10;\n\
assign _4 = x_0 & y_0;\nassign _5 = ~x_0 & ~y_0;\nassign _6 = ~_4 & ~_5;\nassign _7 = z_0 & _6;\n\
assign _8 = ~z_0 & ~_6;\nassign _9 = ~_7 & ~_8;\nassign _10 = ~_4 & ~_7;\n\
assign s_0 = _9;\nassign c_0 = ~_10;\nendmodule\n";

/// A register that toggles, and a pad that is let go.
const TOGGLER: &str = "module top_(clk_0,t_0,p_0,z_0,o_0,one_0);\n\
input clk_0;\ninput t_0;\ninout p_0;\ninput z_0;\noutput o_0;\noutput one_0;\n\
wire _5;\nwire _6;\nwire _7;\nreg q_0;\n\
assign p_0 = z_0 ? 1'bz : q_0;\nassign _5 = t_0 & q_0;\nassign _6 = ~t_0 & ~q_0;\nassign _7 = ~_5 & ~_6;\n\
assign o_0 = ~p_0;\nassign one_0 = 1'b1;\n\
always @(posedge clk_0) begin\nq_0 <= _7;\nend\nendmodule\n";

#[test]
fn written_nets_are_read(rt: HostRuntime) -> Result<(), Fail> {
    let rows = [
        Row {
            text: ADDER,
            written: ADDER,
        },
        Row {
            text: TOGGLER,
            written: TOGGLER,
        },
    ];
    assert_eq!(rt; first_other(rt.alloc(), &rows), None);
    Ok(())
}

#[test]
fn the_adder_has_its_gates(rt: HostRuntime) -> Result<(), Fail> {
    let net = read_short(rt.alloc(), ADDER).map_err(|_| "refused")?;
    assert_eq!(rt; net.name.text(), "FA");
    assert_eq!(rt; net.nodes.items().len(), 10);
    assert_eq!(rt; gate_at(&net, 3), None);
    assert_eq!(rt; gate_at(&net, 4), Some((2, 4)));
    assert_eq!(rt; gate_at(&net, 6), Some((9, 11)));
    assert_eq!(rt; gate_at(&net, 10), Some((9, 15)));
    Ok(())
}

#[test]
fn the_toggler_has_its_nodes(rt: HostRuntime) -> Result<(), Fail> {
    let net = read_short(rt.alloc(), TOGGLER).map_err(|_| "refused")?;
    assert_eq!(rt; net.name.text(), "top");
    assert_eq!(rt; net.free_count(), 2);
    assert_eq!(rt; net.latch_count(), 1);
    assert_eq!(rt; net.pad_count(), 1);
    assert_eq!(rt; gate_at(&net, 7), Some((11, 13)));
    Ok(())
}

#[test]
fn a_text_is_cut_or_doubled(rt: HostRuntime) -> Result<(), Fail> {
    let cut = "module FA(x_0,y_0,z_0,s_0,c_0);\n\
input x_0;\ninput y_0;\ninput z_0;\noutput s_0;\noutput c_0;\n\
wire _4;\nwire _5;\nwire _6;\nwire _7;\nwire _8;\nwire _9;\nwire _10;\n\
assign _4 = x_0 & y_0;\nassign _5 = ~x_0 & ~y_0;\nassign _6 =";
    let doubled = "module FA(x_0,y_0,z_0,s_0,c_0);\n\
input x_0;\ninput y_0;\ninput z_0;\noutput s_0;\noutput c_0;\n\
wire _4;\nwire _5;\nwire _6;\nwire _7;\nwire _8;\nwire _9;\nwire _10;\n\
assign _4 = x_0 & y_0;\nassign _5 = ~x_0 & ~y_0;\nassign _5 = ~x_0 & ~y_0;\n";
    assert_eq!(rt;
        read_short(rt.alloc(), cut).err(),
        Some(VeriError::Syntax { at: 212 })
    );
    assert_eq!(rt;
        read_short(rt.alloc(), doubled).err(),
        Some(VeriError::Twice { at: 208 })
    );
    Ok(())
}

#[test]
fn other_layouts_are_read(rt: HostRuntime) -> Result<(), Fail> {
    let rows = [
        Row {
            text: "module M(o_0,a_1,a_0);wire w;output o_0;input\ta_1,a_0;\r\nassign w=a_1&~a_0;assign o_0=~w;endmodule",
            written: "module M(o_0,a_1,a_0);\noutput o_0;\ninput a_1;\ninput a_0;\nwire _3;\nassign _3 = a_1 & ~a_0;\nassign o_0 = ~_3;\nendmodule\n",
        },
        Row {
            text: "module M(c_0); reg r_0, q_0; input c_0; always @(posedge c_0) begin q_0 <= ~r_0; r_0 <= q_0; end endmodule",
            written: "module M(c_0);\ninput c_0;\nreg r_0;\nreg q_0;\nalways @(posedge c_0) begin\nr_0 <= q_0;\nq_0 <= ~r_0;\nend\nendmodule\n",
        },
        Row {
            text: "module a(); endmodule",
            written: "module a_();\nendmodule\n",
        },
    ];
    assert_eq!(rt; first_other(rt.alloc(), &rows), None);
    Ok(())
}

#[test]
fn gates_are_shared_and_simplified(rt: HostRuntime) -> Result<(), Fail> {
    let rows = [
        Row {
            text: "module M(a_0,o_0); input a_0; output o_0; wire v, w; assign v = a_0 & 1'b1; assign w = v & ~a_0; assign o_0 = ~w; endmodule",
            written: "module M(a_0,o_0);\ninput a_0;\noutput o_0;\nassign o_0 = 1'b1;\nendmodule\n",
        },
        Row {
            text: "module M(a_0,b_0,o_0); input a_0; input b_0; output o_0; wire v, w; assign v = b_0 & a_0; assign w = a_0 & b_0; assign o_0 = w; endmodule",
            written: "module M(a_0,b_0,o_0);\ninput a_0;\ninput b_0;\noutput o_0;\nwire _3;\nassign _3 = a_0 & b_0;\nassign o_0 = _3;\nendmodule\n",
        },
    ];
    assert_eq!(rt; first_other(rt.alloc(), &rows), None);
    Ok(())
}
