//! Types as text, each with its word in front and brackets around.

use crate::expr_printer::{print_expr, print_name, print_qualified};
use sr_tree::{
    Decl, DimsTree, Formal, InvocationKind, Name, PassMode, RangeTree, Returned, Signature,
    TypeTree,
};
use std::alloc::AllocError;

/// `(array (dims n) int)`
#[cycle(printing_types)]
pub fn print_type(out: &mut String, ty: &TypeTree) -> Result<(), AllocError> {
    match ty {
        TypeTree::Int { .. } => out.push_str("int"),
        TypeTree::Bool { .. } => out.push_str("bool"),
        TypeTree::Char { .. } => out.push_str("char"),
        TypeTree::Str { length: None, .. } => out.push_str("(string *)"),
        TypeTree::Str {
            length: Some(length),
            ..
        } => {
            out.push_str("(string ")?;
            print_expr(out, length)?;
            out.push(')')
        }
        TypeTree::Enum { literals, .. } => print_enum(out, literals.as_slice()),
        TypeTree::Rec { fields, .. } => {
            out.push_str("(rec")?;
            print_formals(out, fields.as_slice())?;
            out.push(')')
        }
        TypeTree::CapOf { name, .. } => {
            out.push_str("(cap ")?;
            print_qualified(out, name)?;
            out.push(')')
        }
        TypeTree::CapMachine { .. } => out.push_str("(cap vm)"),
        TypeTree::CapOperation { signature, .. } => {
            out.push_str("(cap ")?;
            print_signature(out, signature)?;
            out.push(')')
        }
        TypeTree::Array { dims, item, .. } => {
            out.push_str("(array ")?;
            print_dims(out, dims)?;
            out.push(' ')?;
            print_type(out, item.get())?;
            out.push(')')
        }
        TypeTree::Named { name, .. } => print_qualified(out, name),
    }
}

/// `(op (x : int) (returns r : int) {call})`
#[cycle(printing_types)]
fn print_signature(out: &mut String, signature: &Signature) -> Result<(), AllocError> {
    out.push_str("(op")?;
    print_formals(out, signature.formals.as_slice())?;
    if let Some(returned) = &signature.returned {
        print_returned(out, returned)?;
    }
    print_kinds(out, signature.kinds.as_slice())?;
    out.push(')')
}

/// ` (returns r : int)`
#[cycle(printing_types)]
fn print_returned(out: &mut String, returned: &Returned) -> Result<(), AllocError> {
    out.push_str(" (returns ")?;
    print_decl(out, &returned.decl)?;
    out.push_str(" : ")?;
    print_type(out, returned.ty.get())?;
    out.push(')')
}

/// ` (var x y : int) (z : bool)`
#[cycle(printing_types)]
fn print_formals(out: &mut String, formals: &[Formal]) -> Result<(), AllocError> {
    for formal in formals {
        out.push_str(mode_text(formal.mode))?;
        print_decls(out, formal.decls.as_slice())?;
        out.push_str(" : ")?;
        print_type(out, &formal.ty)?;
        out.push(')')?;
    }
    Ok(())
}

/// What stands before the first name of a formal.
fn mode_text(mode: Option<PassMode>) -> &'static str {
    match mode {
        None => " (",
        Some(PassMode::Val) => " (val ",
        Some(PassMode::Var) => " (var ",
        Some(PassMode::Res) => " (res ",
    }
}

/// `x y`
fn print_decls(out: &mut String, decls: &[Decl]) -> Result<(), AllocError> {
    let mut is_first = true;
    for decl in decls {
        if !is_first {
            out.push(' ')?;
        }
        is_first = false;
        print_decl(out, decl)?;
    }
    Ok(())
}

/// `x` or `(x (dims 3))`
fn print_decl(out: &mut String, decl: &Decl) -> Result<(), AllocError> {
    match &decl.dims {
        None => print_name(out, &decl.name),
        Some(dims) => {
            out.push('(')?;
            print_name(out, &decl.name)?;
            out.push(' ')?;
            print_dims(out, dims)?;
            out.push(')')
        }
    }
}

/// `(dims n (0 : *))`
fn print_dims(out: &mut String, dims: &DimsTree) -> Result<(), AllocError> {
    out.push_str("(dims ")?;
    print_range(out, &dims.first)?;
    if let Some(second) = &dims.second {
        out.push(' ')?;
        print_range(out, second)?;
    }
    out.push(')')
}

/// `n`, `(1 : n)`, `(1 : *)` or `*`
fn print_range(out: &mut String, range: &RangeTree) -> Result<(), AllocError> {
    match range {
        RangeTree::Length { length, .. } => print_expr(out, length),
        RangeTree::Bounds { low, high, .. } => {
            out.push('(')?;
            print_expr(out, low)?;
            out.push_str(" : ")?;
            print_expr(out, high)?;
            out.push(')')
        }
        RangeTree::From { low, .. } => {
            out.push('(')?;
            print_expr(out, low)?;
            out.push_str(" : *)")
        }
        RangeTree::Any { .. } => out.push('*'),
    }
}

/// `(enum a b)`
fn print_enum(out: &mut String, literals: &[Name]) -> Result<(), AllocError> {
    out.push_str("(enum")?;
    for literal in literals {
        out.push(' ')?;
        print_name(out, literal)?;
    }
    out.push(')')
}

/// ` {call send}`, or nothing where there is no kind
fn print_kinds(out: &mut String, kinds: &[InvocationKind]) -> Result<(), AllocError> {
    let mut is_first = true;
    for kind in kinds {
        out.push_str(if is_first { " {" } else { " " })?;
        is_first = false;
        out.push_str(kind_text(*kind))?;
    }
    if kinds.is_empty() {
        Ok(())
    } else {
        out.push('}')
    }
}

fn kind_text(kind: InvocationKind) -> &'static str {
    match kind {
        InvocationKind::Call => "call",
        InvocationKind::Send => "send",
    }
}
