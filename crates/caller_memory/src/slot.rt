//! A cell that holds a caller's memory, or nothing while the memory is given out.

ghost use Rattle.std.specs.Prelude.{◌≡◌, IfSome};
ghost use base.Fml.{fex, fsep, ftrue};
ghost use Rattle.caller_memory.specs.declared.memory.Memory.{Memory as Held};
ghost use Rattle.caller_memory.specs.Ownership.{behind_a_ref};

use crate::memory::Memory;
use std::marker::{Move, Owns};

pub(crate) struct Slot {
    memory: Option<Memory>,
}

impl Owns for Slot {
    ghost Value = { Held };

    ghost shr_at = { λ r.
        behind_a_ref Fields (λ i. fex (IfSome i.memory (λ m. m ≡ r)) (λ _. ftrue)) };
}

impl Move for Slot {
    ghost own_val = { λ r vs. fex Inside
        (λ i. fsep (Fields.own_val i vs) (fex (IfSome i.memory (λ m. m ≡ r)) (λ _. ftrue))) };
}

impl Slot {
    pub(crate) fn new(memory: Memory) -> Slot
        ensures { result ≡ memory }
    {
        Slot {
            memory: Some(memory),
        }
    }

    pub(crate) fn replace(&self, memory: Option<Memory>) -> Option<Memory>
        requires { IfSome memory (λ m. m ≡ self.now) }
        ensures { IfSome result (λ m. m ≡ self.now) }
    {
        let place = &raw const self.memory as *mut Option<Memory>;
        unsafe {
            let old = place.read();
            place.write(memory);
            old
        }
    }

    pub(crate) fn into_inner(self) -> Option<Memory>
        ensures { IfSome result (λ m. m ≡ self) }
    {
        let Slot { memory } = self;
        memory
    }
}
