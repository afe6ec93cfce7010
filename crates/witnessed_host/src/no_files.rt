//! A witness who knows that there is nothing.
ghost use Rattle.std.specs.Prelude.{◌≡◌, true};
ghost use Rattle.witnessed_host.specs.EmptyWorld.{empty_world, no_contents};

use crate::{InputWitness, Witness};
use host_calls::{Bytes, Child, Ending, EnterFault, HostFault, InputFault, Name, StartFault};
use std::alloc::AllocError;

/// Knows that the directory is empty and stays so, that standard input is empty and that there is no other file. He
/// disputes all else.
#[derive(Clone, Copy)]
pub struct NoFiles;

impl Witness for NoFiles {
    ghost knows = { true };

    ghost alone = { true };

    ghost world = { λ _. empty_world };

    fn entered(&mut self, answer: Result<(), EnterFault>) -> Result<(), EnterFault> {
        answer
    }

    fn left(&mut self) {}

    fn listed(&mut self, answer: Result<Vec<Name>, HostFault>) -> Result<Vec<Name>, HostFault> {
        let names = answer?;
        if names.as_slice().is_empty() {
            Ok(names)
        } else {
            Err(HostFault::Failed)
        }
    }

    fn measured(
        &mut self,
        _name: &Name,
        _answer: Result<u64, HostFault>,
    ) -> Result<u64, HostFault> {
        Err(HostFault::Failed)
    }

    fn read(
        &mut self,
        _name: &Name,
        _offset: u64,
        _most: usize,
        _answer: Result<Vec<u8>, HostFault>,
    ) -> Result<Vec<u8>, HostFault> {
        Err(HostFault::Failed)
    }

    fn created(
        &mut self,
        _name: &Name,
        _bytes: &[u8],
        _answer: Result<(), HostFault>,
    ) -> Result<(), HostFault> {
        Err(HostFault::Failed)
    }

    fn written(
        &mut self,
        _name: &Name,
        _offset: u64,
        _bytes: &[u8],
        _answer: Result<(), HostFault>,
    ) -> Result<(), HostFault> {
        Err(HostFault::Failed)
    }

    fn synced(&mut self, _name: &Name, _answer: Result<(), HostFault>) -> Result<(), HostFault> {
        Err(HostFault::Failed)
    }

    fn names_synced(&mut self, _answer: Result<(), HostFault>) -> Result<(), HostFault> {
        Err(HostFault::Failed)
    }

    fn settled(&mut self, _answer: Result<(), HostFault>) -> Result<(), HostFault> {
        Err(HostFault::Failed)
    }

    fn renamed(
        &mut self,
        _from: &Name,
        _to: &Name,
        _answer: Result<(), HostFault>,
    ) -> Result<(), HostFault> {
        Err(HostFault::Failed)
    }

    fn removed(&mut self, _name: &Name, _answer: Result<(), HostFault>) -> Result<(), HostFault> {
        Err(HostFault::Failed)
    }

    fn started(
        &mut self,
        _number: u32,
        _name: &Name,
        _nice: u8,
        _answer: &Result<Child, StartFault>,
    ) {}

    fn asked(
        &mut self,
        _child: &Child,
        _answer: Result<Option<Ending>, AllocError>,
    ) -> Result<Option<Ending>, AllocError> {
        Err(AllocError)
    }
}

impl InputWitness for NoFiles {
    ghost knows = { true };

    ghost contents = { λ _. no_contents };

    fn standard(
        &mut self,
        _most: usize,
        answer: Result<Bytes, InputFault>,
    ) -> Result<Bytes, InputFault> {
        let bytes = answer?;
        if bytes.as_slice().is_empty() {
            Ok(bytes)
        } else {
            Err(InputFault::Failed)
        }
    }

    fn file(
        &mut self,
        _path: &str,
        _most: usize,
        _answer: Result<Bytes, InputFault>,
    ) -> Result<Bytes, InputFault> {
        Err(InputFault::Failed)
    }
}
