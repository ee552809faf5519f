ghost use Rattle.std.specs.Prelude.{◌≡◌, [], Some, OnOk, OnErr, IfOk, IfSome};
ghost use Rattle.std.specs.Option.{option_copied};
ghost use Rattle.sr_types.specs.Signatures.{number_of, signature_at, signature_of, with_signature, HasOneNumber, KeepsNumbers};

use crate::signature::Signature;
use crate::ty::Ty;
use indexmap::IndexSet;
use sr_value::NoMemory;
use std::alloc::Global;
use std::marker::Model;

/// The signatures of a program in the order in which they were put in. Each stands once, and its number is its
/// place.
#[derive(Drop)]
pub struct Signatures {
    signatures: IndexSet<Signature>,
}

impl Model for Signatures {
    ghost use Rattle.std.specs.Prelude.{List};
    ghost use Rattle.std.specs.Coded.{codes};
    ghost use Rattle.sr_types.specs.contracts.ty.Ty as ty;
    ghost use Rattle.sr_types.specs.declared.signature.Signature.{Signature};

    ghost Value = { List Signature };

    ghost coded = { Prim.hlevel (codes, ty.the_row.coded) };

    ghost view = { λ all. all.signatures.keys };
}

impl Signatures {
    /// No signatures. It takes no memory.
    pub fn new(alloc: Global) -> Self
        ensures { result ≡ [] }
    {
        Signatures {
            signatures: IndexSet::new(alloc),
        }
    }

    /// The number of a signature, where it is there.
    pub fn number(&self, signature: &Signature) -> Option<usize>
        ensures value { result ≡ number_of self.now signature.now }
        ensures found { IfSome result (λ number. signature_at self.now number ≡ Some signature.now) }
    {
        self.signatures.get_index_of(signature)
    }

    /// The signature with a number.
    pub fn at(&self, number: usize) -> Option<&Signature>
        ensures { option_copied result ≡ signature_at self.now number }
    {
        self.signatures.get_index(number)
    }

    /// The signature of the operations that a type is of.
    pub fn of(&self, ty: &Ty) -> Option<&Signature>
        ensures { option_copied result ≡ signature_of self.now ty.now }
    {
        match ty {
            Ty::Op(number) => self.at(*number),
            _ => None,
        }
    }

    /// Appends a signature to the others, unless it is there already, and answers its number. All that have
    /// numbers keep them, and no signature has two.
    pub fn add(&mut self, signature: Signature) -> Result<usize, NoMemory>
        ensures added { OnOk result (self.new ≡ with_signature self.old signature) }
        ensures numbered { IfOk result (λ number. number_of self.new signature ≡ Some number) }
        ensures found { IfOk result (λ number. signature_at self.new number ≡ Some signature) }
        ensures one { OnOk result (HasOneNumber self.new) }
        ensures kept { KeepsNumbers self.old self.new }
        ensures unchanged { OnErr result (self.new ≡ self.old) }
    {
        let (number, _) = self.signatures.insert_full(signature)?;
        Ok(number)
    }
}
