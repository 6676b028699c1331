// Expressions at their limit of 512 tokens, and one inside a longer text.
use crate::answer::{Answer, joined, read_text};
use lola_bits::Op;
use lola_parse::{ParseError, parse_expr, parse_table_expr, tokens_lie_within};
use lola_scan::scan;
use lola_tree::Expr;
use std::test::Fail;

#[test]
fn an_expression_has_512_tokens(rt: HostRuntime) -> Result<(), Fail> {
    let alloc = rt.alloc();
    let text = joined(alloc, b"MODULE A(); BEGIN x := ", 126, 511, b"y END A.")?;
    assert_eq!(rt; read_text(alloc, text.as_slice()), Answer::Tree);
    let text = joined(alloc, b"MODULE A(); BEGIN x := ", 126, 512, b"y END A.")?;
    assert_eq!(rt; read_text(alloc, text.as_slice()), Answer::Long { at: 535 });
    let text = joined(alloc, b"MODULE A(); BEGIN x := ", 126, 513, b"y END A.")?;
    assert_eq!(rt; read_text(alloc, text.as_slice()), Answer::Long { at: 535 });
    Ok(())
}

#[test]
fn a_token_that_cannot_go_on_is_none_of_the_expression(rt: HostRuntime) -> Result<(), Fail> {
    let alloc = rt.alloc();
    let text = joined(alloc, b"MODULE A(); BEGIN x := ", 126, 511, b"y) END A.")?;
    assert_eq!(rt;
        read_text(alloc, text.as_slice()),
        Answer::Syntax { at: 535 }
    );
    let text = joined(alloc, b"MODULE A(); BEGIN x := ", 126, 512, b"; END A.")?;
    assert_eq!(rt;
        read_text(alloc, text.as_slice()),
        Answer::Syntax { at: 535 }
    );
    let text = joined(alloc, b"MODULE A(); BEGIN x := ", 126, 512, b"")?;
    assert_eq!(rt;
        read_text(alloc, text.as_slice()),
        Answer::Syntax { at: 535 }
    );
    Ok(())
}

#[test]
fn an_expression_inside_a_text_ends_where_no_token_goes_on(rt: HostRuntime) -> Result<(), Fail> {
    let alloc = rt.alloc();
    let text = b"q ^ t;";
    let tokens = scan(alloc, text).map_err(|_| "scan")?;
    tokens_lie_within();
    let (tree, behind) = parse_expr(alloc, text, tokens.as_slice(), 0).map_err(|_| "parse")?;
    assert_eq!(rt; tokens.len(), 4);
    assert_eq!(rt; behind, 3);
    match tree {
        Expr::Binary {
            op: Op::Xor,
            left,
            right,
            at,
        } => {
            assert_eq!(rt; at, 2);
            assert!(rt; is_name(&left, "q") && is_name(&right, "t"));
        }
        _ => assert!(rt; false),
    }
    Ok(())
}

#[test]
fn a_table_names_parts_of_the_design(rt: HostRuntime) -> Result<(), Fail> {
    let alloc = rt.alloc();
    let text = b"@core.END & q;";
    let tokens = scan(alloc, text).map_err(|_| "scan")?;
    tokens_lie_within();
    let (tree, behind) = parse_table_expr(alloc, text, tokens.as_slice(), 0).map_err(|_| "parse")?;
    assert_eq!(rt; behind, 6);
    match tree {
        Expr::Binary {
            op: Op::And,
            left,
            right,
            at,
        } => {
            assert_eq!(rt; at, 10);
            assert!(rt; is_path(&left, "core", "END") && is_name(&right, "q"));
        }
        _ => assert!(rt; false),
    }
    Ok(())
}

#[test]
fn a_table_counts_in_numbers(rt: HostRuntime) -> Result<(), Fail> {
    let alloc = rt.alloc();
    let text = b"q.n";
    let tokens = scan(alloc, text).map_err(|_| "scan")?;
    tokens_lie_within();
    assert!(rt;
        matches!(
            parse_table_expr(alloc, text, tokens.as_slice(), 0),
            Err(ParseError::Syntax { at: 2 })
        )
    );
    let (_, behind) = parse_expr(alloc, text, tokens.as_slice(), 0).map_err(|_| "parse")?;
    assert_eq!(rt; behind, 3);
    Ok(())
}

#[test]
fn a_design_has_no_names_of_another(rt: HostRuntime) -> Result<(), Fail> {
    let alloc = rt.alloc();
    let text = b"@q";
    let tokens = scan(alloc, text).map_err(|_| "scan")?;
    tokens_lie_within();
    assert!(rt;
        matches!(
            parse_expr(alloc, text, tokens.as_slice(), 0),
            Err(ParseError::Syntax { at: 0 })
        )
    );
    Ok(())
}

/// An expression is this path of two names, written with `@`.
fn is_path(expr: &Expr, first: &str, second: &str) -> bool {
    match expr {
        Expr::Whole { of } => of.source
            && of.path.items().len() == 2
            && of.path.items()[0].text() == first
            && of.path.items()[1].text() == second,
        _ => false,
    }
}

/// An expression is this name alone.
fn is_name(expr: &Expr, name: &str) -> bool {
    match expr {
        Expr::Whole { of } => of.path.items().len() == 1 && of.path.items()[0].text() == name,
        _ => false,
    }
}
