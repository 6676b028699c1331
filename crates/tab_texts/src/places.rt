// The places that rows keep.
use lola_parse::{Cursor, Language, tokens_lie_within};
use lola_scan::scan;
use std::process::Abort;
use tab_parse::{ActiveRole, PlacedRole, take_roles, take_sets};

#[test]
fn a_role_has_the_place_of_its_word(rt: HostRuntime) {
    let alloc = rt.alloc();
    let text: &[u8] = b"STALL st = 3;";
    tokens_lie_within();
    match scan(alloc, text) {
        Ok(tokens) => match take_roles(
            alloc,
            Cursor::new(Language::Table, text, tokens.as_slice()),
        ) {
            Ok((rows, _)) => match rows.as_slice() {
                [
                    PlacedRole::Active {
                        role,
                        at,
                        port,
                        value,
                    },
                ] => {
                    assert_eq!(rt; *role, ActiveRole::Stall);
                    assert_eq!(rt; *at, 0);
                    assert_eq!(rt; port.at, 6);
                    assert_eq!(rt; *value, 3);
                }
                _ => rt.abort(),
            },
            Err(_) => rt.abort(),
        },
        Err(_) => rt.abort(),
    }
}

#[test]
fn a_set_has_the_places_of_its_marks(rt: HostRuntime) {
    let alloc = rt.alloc();
    let text: &[u8] = b"SET m[a] := q;";
    tokens_lie_within();
    match scan(alloc, text) {
        Ok(tokens) => match take_sets(
            alloc,
            Cursor::new(Language::Table, text, tokens.as_slice()),
        ) {
            Ok((rows, _)) => match rows.as_slice() {
                [row] => {
                    assert_eq!(rt; row.name.at, 4);
                    assert_eq!(rt; row.equals, 9);
                    assert_eq!(rt; row.value.at, 12);
                    match &row.place {
                        Some(place) => {
                            assert_eq!(rt; place.at, 5);
                        }
                        None => rt.abort(),
                    }
                }
                _ => rt.abort(),
            },
            Err(_) => rt.abort(),
        },
        Err(_) => rt.abort(),
    }
}
