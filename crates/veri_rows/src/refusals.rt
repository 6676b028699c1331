// What is refused, and at which offset.
use std::alloc::Global;
use std::test::Fail;
use veri_read::{VeriError, read};

/// A text and its refusal.
#[derive(Clone, Copy)]
struct Row {
    text: &'static str,
    fault: VeriError,
}

/// Whether a short text is refused so.
fn is_refused(alloc: Global, row: &Row) -> bool {
    if row.text.len() > 1000 {
        return false;
    }
    match read(alloc, row.text.as_bytes()) {
        Ok(_) => false,
        Err(fault) => fault == row.fault,
    }
}

/// The number of the first row that is read or refused otherwise.
fn first_other(alloc: Global, rows: &[Row]) -> Option<usize> {
    rows.iter().position(|row| !is_refused(alloc, row))
}

#[test]
fn bytes_that_begin_no_token(rt: HostRuntime) -> Result<(), Fail> {
    let rows = [
        Row {
            text: "module M(); $",
            fault: VeriError::BadToken { at: 12 },
        },
        Row {
            text: "module M(); < endmodule",
            fault: VeriError::BadToken { at: 12 },
        },
        Row {
            text: "module M(); 1'b2",
            fault: VeriError::BadToken { at: 12 },
        },
        Row {
            text: "module M(); // endmodule",
            fault: VeriError::BadToken { at: 12 },
        },
    ];
    assert_eq!(rt; first_other(rt.alloc(), &rows), None);
    Ok(())
}

#[test]
fn tokens_that_do_not_go_on(rt: HostRuntime) -> Result<(), Fail> {
    let rows = [
        Row {
            text: "",
            fault: VeriError::Syntax { at: 0 },
        },
        Row {
            text: "module",
            fault: VeriError::Syntax { at: 6 },
        },
        Row {
            text: "module M() input",
            fault: VeriError::Syntax { at: 11 },
        },
        Row {
            text: "module input();",
            fault: VeriError::Syntax { at: 7 },
        },
        Row {
            text: "module M(); endmodule x",
            fault: VeriError::Syntax { at: 22 },
        },
        Row {
            text: "module M(o_0); output o_0; assign o_0 = 1'b1 & 1'b0; endmodule",
            fault: VeriError::Syntax { at: 45 },
        },
        Row {
            text: "module M(); wire w; assign w = 1'b1 ; endmodule",
            fault: VeriError::Syntax { at: 36 },
        },
        Row {
            text: "module M(p_0); inout p_0; assign p_0 = 1'b1 & 1'b0; endmodule",
            fault: VeriError::Syntax { at: 44 },
        },
    ];
    assert_eq!(rt; first_other(rt.alloc(), &rows), None);
    Ok(())
}

#[test]
fn declared_names_that_are_no_bits(rt: HostRuntime) -> Result<(), Fail> {
    let rows = [
        Row {
            text: "module M(a); input a;",
            fault: VeriError::Syntax { at: 19 },
        },
        Row {
            text: "module M(a_00); input a_00;",
            fault: VeriError::Syntax { at: 22 },
        },
        Row {
            text: "module M(_0); input _0;",
            fault: VeriError::Syntax { at: 20 },
        },
        Row {
            text: "module M(a_1,b_0); input a_1, b_0;",
            fault: VeriError::Syntax { at: 30 },
        },
        Row {
            text: "module M(a_2,a_0); input a_2, a_0;",
            fault: VeriError::Syntax { at: 30 },
        },
        Row {
            text: "module M(a_1,a_0); input a_1; output a_0;",
            fault: VeriError::Syntax { at: 37 },
        },
        Row {
            text: "module M(a_1); input a_1; endmodule",
            fault: VeriError::Syntax { at: 26 },
        },
        Row {
            text: "module M(a_1,o_0); output o_0; input a_1; assign o_0 = a_1;",
            fault: VeriError::Syntax { at: 42 },
        },
    ];
    assert_eq!(rt; first_other(rt.alloc(), &rows), None);
    Ok(())
}

#[test]
fn ends_where_something_is_to_be_said(rt: HostRuntime) -> Result<(), Fail> {
    let rows = [
        Row {
            text: "module M(); wire w; endmodule",
            fault: VeriError::Syntax { at: 20 },
        },
        Row {
            text: "module M(o_0); output o_0; endmodule",
            fault: VeriError::Syntax { at: 27 },
        },
        Row {
            text: "module M(p_0); inout p_0; endmodule",
            fault: VeriError::Syntax { at: 26 },
        },
        Row {
            text: "module M(); reg q_0; endmodule",
            fault: VeriError::Syntax { at: 21 },
        },
        Row {
            text: "module M(a_0); endmodule",
            fault: VeriError::Syntax { at: 15 },
        },
    ];
    assert_eq!(rt; first_other(rt.alloc(), &rows), None);
    Ok(())
}

#[test]
fn names_that_are_not_known(rt: HostRuntime) -> Result<(), Fail> {
    let rows = [
        Row {
            text: "module M(); input a_0;",
            fault: VeriError::UnknownName { at: 18 },
        },
        Row {
            text: "module M(); wire w; assign w = v & w;",
            fault: VeriError::UnknownName { at: 31 },
        },
        Row {
            text: "module M(o_0); output o_0; assign w = o_0;",
            fault: VeriError::UnknownName { at: 34 },
        },
        Row {
            text: "module M(a_0); input a_0; assign a_0 = 1'b0;",
            fault: VeriError::UnknownName { at: 33 },
        },
        Row {
            text: "module M(o_0,n_0); output o_0, n_0; assign o_0 = 1'b0; assign n_0 = o_0;",
            fault: VeriError::UnknownName { at: 68 },
        },
    ];
    assert_eq!(rt; first_other(rt.alloc(), &rows), None);
    Ok(())
}

#[test]
fn clocks_and_registers_that_are_none(rt: HostRuntime) -> Result<(), Fail> {
    let rows = [
        Row {
            text: "module M(); reg q_0; always @(posedge q_0) begin",
            fault: VeriError::UnknownName { at: 38 },
        },
        Row {
            text: "module M(c_1,c_0); input c_1, c_0; always @(posedge c_0) begin",
            fault: VeriError::UnknownName { at: 52 },
        },
        Row {
            text: "module M(c_0); input c_0; wire w; assign w = ~c_0 & 1'b1; always @(posedge c_0) begin",
            fault: VeriError::UnknownName { at: 75 },
        },
        Row {
            text: "module M(c_0); input c_0; reg q_0; always @(posedge c_0) begin q_0 <= c_0;",
            fault: VeriError::UnknownName { at: 70 },
        },
        Row {
            text: "module M(c_0); input c_0; always @(posedge c_0) begin c_0 <= 1'b0;",
            fault: VeriError::UnknownName { at: 54 },
        },
    ];
    assert_eq!(rt; first_other(rt.alloc(), &rows), None);
    Ok(())
}

#[test]
fn names_that_come_twice(rt: HostRuntime) -> Result<(), Fail> {
    let rows = [
        Row {
            text: "module M(a_0,a_0);",
            fault: VeriError::Twice { at: 13 },
        },
        Row {
            text: "module M(a_0); input a_0; output a_0;",
            fault: VeriError::Twice { at: 33 },
        },
        Row {
            text: "module M(o_0); output o_0; assign o_0 = 1'b0; assign o_0 = 1'b0;",
            fault: VeriError::Twice { at: 53 },
        },
        Row {
            text: "module M(); wire w; assign w = 1'b0 & 1'b0; assign w = v;",
            fault: VeriError::Twice { at: 51 },
        },
        Row {
            text: "module M(c_0); input c_0; reg q_0; always @(posedge c_0) begin q_0 <= 1'b0; q_0 <= 1'b0;",
            fault: VeriError::Twice { at: 76 },
        },
    ];
    assert_eq!(rt; first_other(rt.alloc(), &rows), None);
    Ok(())
}

#[test]
fn wires_that_are_used_before_their_assign(rt: HostRuntime) -> Result<(), Fail> {
    let rows = [
        Row {
            text: "module M(); wire w; assign w = w & 1'b0;",
            fault: VeriError::Unordered { at: 31 },
        },
        Row {
            text: "module M(); wire v, w; assign w = 1'b0 & v; assign v = 1'b0 & 1'b0;",
            fault: VeriError::Unordered { at: 41 },
        },
        Row {
            text: "module M(p_0,r_0); inout p_0, r_0; assign r_0 = ~p_0 ? 1'bz : 1'b0;",
            fault: VeriError::Unordered { at: 49 },
        },
        Row {
            text: "module M(c_0); input c_0; reg q_0; wire w; always @(posedge c_0) begin q_0 <= w;",
            fault: VeriError::Unordered { at: 78 },
        },
    ];
    assert_eq!(rt; first_other(rt.alloc(), &rows), None);
    Ok(())
}
