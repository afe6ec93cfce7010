//! A witness who knows nothing.
ghost use Rattle.std.specs.Prelude.{◌≡◌, false};
ghost use Rattle.witnessed_host.specs.EmptyWorld.{empty_world, no_contents};

use crate::{InputWitness, Witness};
use host_calls::{Bytes, Child, Ending, EnterFault, HostFault, InputFault, Name, StartFault};
use std::alloc::AllocError;

/// Knows nothing, and disputes nothing. A program ships with him.
#[derive(Clone, Copy)]
pub struct Unchecked;

impl Witness for Unchecked {
    ghost knows = { false };

    ghost alone = { false };

    ghost world = { λ _. empty_world };

    fn entered(&mut self, answer: Result<(), EnterFault>) -> Result<(), EnterFault>
        ensures passed_on { result ≡ answer }
    {
        answer
    }

    fn left(&mut self) {}

    fn listed(&mut self, answer: Result<Vec<Name>, HostFault>) -> Result<Vec<Name>, HostFault>
        ensures passed_on { result ≡ answer }
    {
        answer
    }

    fn measured(&mut self, _name: &Name, length: Result<u64, HostFault>) -> Result<u64, HostFault>
        ensures passed_on { result ≡ length }
    {
        length
    }

    fn read(
        &mut self,
        _name: &Name,
        _offset: u64,
        _most: usize,
        answer: Result<Vec<u8>, HostFault>,
    ) -> Result<Vec<u8>, HostFault>
        ensures passed_on { result ≡ answer }
    {
        answer
    }

    fn created(
        &mut self,
        _name: &Name,
        _bytes: &[u8],
        answer: Result<(), HostFault>,
    ) -> Result<(), HostFault>
        ensures passed_on { result ≡ answer }
    {
        answer
    }

    fn written(
        &mut self,
        _name: &Name,
        _offset: u64,
        _bytes: &[u8],
        answer: Result<(), HostFault>,
    ) -> Result<(), HostFault>
        ensures passed_on { result ≡ answer }
    {
        answer
    }

    fn synced(&mut self, _name: &Name, answer: Result<(), HostFault>) -> Result<(), HostFault>
        ensures passed_on { result ≡ answer }
    {
        answer
    }

    fn names_synced(&mut self, answer: Result<(), HostFault>) -> Result<(), HostFault>
        ensures passed_on { result ≡ answer }
    {
        answer
    }

    fn settled(&mut self, answer: Result<(), HostFault>) -> Result<(), HostFault>
        ensures passed_on { result ≡ answer }
    {
        answer
    }

    fn renamed(
        &mut self,
        _from: &Name,
        _to: &Name,
        answer: Result<(), HostFault>,
    ) -> Result<(), HostFault>
        ensures passed_on { result ≡ answer }
    {
        answer
    }

    fn removed(&mut self, _name: &Name, answer: Result<(), HostFault>) -> Result<(), HostFault>
        ensures passed_on { result ≡ answer }
    {
        answer
    }

    fn started(
        &mut self,
        _number: u32,
        _name: &Name,
        _nice: u8,
        _answer: &Result<Child, StartFault>,
    ) {}

    fn asked(
        &mut self,
        _child: &Child,
        answer: Result<Option<Ending>, AllocError>,
    ) -> Result<Option<Ending>, AllocError>
        ensures passed_on { result ≡ answer }
    {
        answer
    }
}

impl InputWitness for Unchecked {
    ghost knows = { false };

    ghost contents = { λ _. no_contents };

    fn standard(
        &mut self,
        _most: usize,
        answer: Result<Bytes, InputFault>,
    ) -> Result<Bytes, InputFault>
        ensures passed_on { result ≡ answer }
    {
        answer
    }

    fn file(
        &mut self,
        _path: &str,
        _most: usize,
        answer: Result<Bytes, InputFault>,
    ) -> Result<Bytes, InputFault>
        ensures passed_on { result ≡ answer }
    {
        answer
    }
}
