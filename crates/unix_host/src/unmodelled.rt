//! Neither the directory nor the inputs tell what they hold, so a witness may be next to them.
ghost use Rattle.std.specs.Prelude.{refl};

use crate::{UnixHost, UnixInputs};
use std::fs::{File, Files};
use std::process::Processes;
use std::rt::Runtime;
use witnessed_host::{Unmodelled, UnmodelledInputs};

impl<R: Runtime<File = File> + Processes> Unmodelled for UnixHost<R> {
    ghost unmodelled = { refl };
}

impl<R: Files<File = File> + Input + Drop> UnmodelledInputs for UnixInputs<R> {
    ghost unmodelled = { refl };
}
