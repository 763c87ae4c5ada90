//! A client that C keeps, by its address. The address is typed as one of bytes, so that C may be lent the struct.

ghost use Rattle.std.specs.Prelude.{◌≡◌, Option, Some, None, true};
ghost use Rattle.fle_c.specs.Holding.{is_full, kept_coded};
ghost use Rattle.fle_client.specs.declared.client.Client.{Client};

use crate::parts::Parts;
use fle_client::Client;
use std::alloc::Global;
use std::marker::Model;

/// A client, by its address, or none. What is owned there is said by a ghost value.
#[repr(C)]
#[derive(Drop)]
pub struct Kept {
    at: *mut u8,
    alloc: Global,
    pub ghost value: { Option Client } by { kept_coded },
}

impl Model for Kept {
    ghost use Rattle.fle_c.specs.Holding.{kept_owns};

    ghost also_owns = { λ k. kept_owns k.alloc k.at k.value };
}

impl Kept {
    /// No client.
    pub(crate) fn none(alloc: Global) -> Kept
        ensures { result.value ≡ None }
    {
        Kept {
            at: std::ptr::null_mut(),
            alloc,
        }
    }

    /// The client of a box that was taken apart.
    pub(crate) fn of_parts(parts: Parts<Client, Global>) -> Kept
        ensures { result.value ≡ Some parts.value }
    {
        let Parts { at, alloc } = parts;
        Kept {
            at: at as *mut u8,
            alloc,
        }
    }

    /// The box of the client, in its parts.
    pub(crate) fn into_parts(self) -> Parts<Client, Global>
        requires { is_full self.value ≡ true }
        ensures { Some result.value ≡ self.value }
    {
        let Kept { at, alloc } = self;
        Parts {
            at: at as *mut Client,
            alloc,
        }
    }
}

// What is owned at the address is a client and its block of the heap, and any thread may own these.
unsafe impl Send for Kept {}
