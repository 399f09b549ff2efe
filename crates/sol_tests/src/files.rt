// The units of whole files.

use crate::texts::file_of;
use chc_nums::NoMemory;
use sol_tree::{Block, Member, Unit};
use std::alloc::Global;

fn show_body(body: &Option<Block>, out: &mut String) -> Result<(), NoMemory> {
    match body {
        Some(_) => out.push_str("{}")?,
        None => out.push_str(";")?,
    }
    Ok(())
}

fn show_member(member: &Member, out: &mut String) -> Result<(), NoMemory> {
    match member {
        Member::Var { .. } => out.push_str("v")?,
        Member::Fun { fun, .. } => {
            out.push_str("f")?;
            show_body(&fun.body, out)?;
        }
        Member::Constructor { .. } => out.push_str("c")?,
        Member::Modifier { modifier, .. } => {
            out.push_str("m")?;
            show_body(&modifier.body, out)?;
        }
        Member::Event { .. } => out.push_str("e")?,
        Member::Error { .. } => out.push_str("r")?,
    }
    Ok(())
}

fn show_members(members: &[Member], out: &mut String) -> Result<(), NoMemory> {
    for member in members {
        show_member(member, out)?;
    }
    out.push_str(")")?;
    Ok(())
}

fn show_unit(unit: &Unit, out: &mut String) -> Result<(), NoMemory> {
    match unit {
        Unit::Contract {
            is_abstract,
            members,
            ..
        } => {
            out.push_str(if *is_abstract { "A(" } else { "C(" })?;
            show_members(members.as_slice(), out)?;
        }
        Unit::Interface { members, .. } => {
            out.push_str("I(")?;
            show_members(members.as_slice(), out)?;
        }
        Unit::Event { .. } => out.push_str("E")?,
        Unit::Error { .. } => out.push_str("R")?,
    }
    Ok(())
}

fn shown_units(alloc: Global, units: &[Unit]) -> Result<String, NoMemory> {
    let mut out = String::new(alloc);
    for unit in units {
        show_unit(unit, &mut out)?;
    }
    Ok(out)
}

// The units in short, or the place where there is no tree.
fn shown(alloc: Global, text: &str) -> Result<(String, u32), NoMemory> {
    let (shown, at) = match file_of(alloc, text)? {
        Ok(file) => (shown_units(alloc, file.units.as_slice()), file.at),
        Err(at) => (Ok(String::new(alloc)), at),
    };
    Ok((shown?, at))
}

#[test]
fn files_have_these_units(rt: HostRuntime) -> Result<(), NoMemory> {
    for (text, want, place) in [
        ("", "", 0),
        (" abstract contract C is A , B ( 1 ) { }", "A()", 1),
        ("interface I { function f ( ) external ; }", "I(f;)", 0),
        ("error E ( ) ; event E ( ) ;", "RE", 0),
        (
            "contract C { error e ( uint8 ) ; mapping ( a => b [ ] ) m ; event E ( ) ; }",
            "C(rve)",
            0,
        ),
        (
            "contract C { constructor ( ) public A ( 1 ) { } modifier m { } }",
            "C(cm{})",
            0,
        ),
        (
            "contract C { function f ( ) public { if ( a ) { b ++ ; } else return ; } uint8 x = 1 ; }",
            "C(f{}v)",
            0,
        ),
        ("contract C { uint8 }", "", 19),
        ("contract C { function f ( ) returns ( ) ; }", "", 38),
    ] {
        let (units, at) = shown(rt.alloc(), text)?;
        assert_eq!(rt; units.as_str(), want);
        assert_eq!(rt; at, place);
    }
    Ok(())
}
