use crate::declaration::{ConstDecl, Import, OpDecl, OpTypeDecl, SemDecl, TypeDecl, VarDecl};
use crate::name::Name;
use crate::statement::{Quantifier, Statement};
use crate::types::{Formal, Signature};
use sr_value::{Row, Span};

/// The components of a source file in order.
#[derive(Drop)]
pub struct File {
    pub components: Row<Component>,
}

/// A resource or a global. Each `span` is the span of the first token.
#[derive(Drop)]
pub enum Component {
    /// `resource name formals items end`
    Resource {
        span: Span,
        name: Name,
        formals: Row<Formal>,
        items: Row<Item>,
    },
    /// `resource name spec body name formals items end`; no formals where none are written.
    SplitResource {
        span: Span,
        name: Name,
        spec: Row<SpecItem>,
        formals: Row<Formal>,
        items: Row<Item>,
    },
    /// `global name spec body name items end`
    Global {
        span: Span,
        name: Name,
        spec: Row<SpecItem>,
        body: Option<Row<Item>>,
    },
}

/// What may stand in a spec.
#[derive(Drop)]
pub enum SpecItem {
    Import(Import),
    Const(ConstDecl),
    Type(TypeDecl),
    OpType(OpTypeDecl),
    Op(OpDecl),
    Var(VarDecl),
    Sem(SemDecl),
}

/// What may stand in a component outside its spec.
#[derive(Drop)]
pub enum Item {
    Spec(SpecItem),
    Proc(Proc),
    Procedure(Procedure),
    Process(Process),
    Final(FinalCode),
    Statement(Statement),
}

/// `proc name(formals) returns returned block end`
#[derive(Drop)]
pub struct Proc {
    pub span: Span,
    pub name: Name,
    pub formals: Row<Name>,
    pub returned: Option<Name>,
    pub block: Row<ProcItem>,
}

/// `procedure name signature block end`
#[derive(Drop)]
pub struct Procedure {
    pub span: Span,
    pub name: Name,
    pub signature: Signature,
    pub block: Row<ProcItem>,
}

/// `process name(quantifiers) block end`
#[derive(Drop)]
pub struct Process {
    pub span: Span,
    pub name: Name,
    /// None where no parentheses are written.
    pub quantifiers: Row<Quantifier>,
    pub block: Row<ProcItem>,
}

/// `final block end`
#[derive(Drop)]
pub struct FinalCode {
    pub span: Span,
    pub block: Row<ProcItem>,
}

/// What may stand in the block of a proc, procedure or process, and in final code.
#[derive(Drop)]
pub enum ProcItem {
    Const(ConstDecl),
    Var(VarDecl),
    Op(OpDecl),
    Sem(SemDecl),
    Statement(Statement),
}
