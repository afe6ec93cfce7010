//! The paths of a spool directory and of what lies next to it.
ghost use Rattle.std.specs.Prelude.{◌≡◌, ◌++◌, IfOk, OnOk, string_bytes};
ghost use Rattle.std.specs.Path.{IsAbsolute};
ghost use Rattle.unix_host.specs.inside.Paths.{file_in, lock_of, outputs_of};

use host_calls::Name;
use std::alloc::{AllocError, Global};

/// The directory `SPOOL`, the directory `SPOOL.out` of outputs, the file `SPOOL.lock`, and the directory that the
/// three lie in.
#[derive(Drop)]
pub struct Paths {
    whole: String,
    // By what the files of the directory are reached.
    directory: String,
    outputs: String,
    lock: String,
    parent: String,
    ghost whole_absolute: { IsAbsolute (string_bytes whole) },
    ghost outputs_absolute: { IsAbsolute (string_bytes outputs) },
}

impl Paths {
    /// The paths of this directory, which lies in that one.
    pub fn of(
        alloc: Global,
        whole: &str,
        directory: &str,
        parent: &str,
    ) -> Result<Paths, AllocError>
        requires { IsAbsolute whole.now }
        ensures whole { IfOk result (λ paths. string_bytes paths.whole ≡ whole.now) }
        ensures directory { IfOk result (λ paths. string_bytes paths.directory ≡ directory.now) }
        ensures outputs { IfOk result (λ paths. string_bytes paths.outputs ≡ outputs_of whole.now) }
        ensures lock { IfOk result (λ paths. string_bytes paths.lock ≡ lock_of whole.now) }
        ensures parent { IfOk result (λ paths. string_bytes paths.parent ≡ parent.now) }
    {
        Ok(Paths {
            whole: String::from_str(alloc, whole)?,
            directory: String::from_str(alloc, directory)?,
            outputs: joined_path(alloc, whole, ".out")?,
            lock: joined_path(alloc, whole, ".lock")?,
            parent: String::from_str(alloc, parent)?,
        })
    }

    /// The directory itself, as this process reaches it.
    pub fn directory(&self) -> &str
        ensures { result.now ≡ string_bytes self.now.directory }
    {
        self.directory.as_str()
    }

    /// The same, as each process reaches it.
    pub fn whole(&self) -> &str
        ensures { result.now ≡ string_bytes self.now.whole }
    {
        self.whole.as_str()
    }

    /// The directory of what jobs write.
    pub fn outputs(&self) -> &str
        ensures { result.now ≡ string_bytes self.now.outputs }
    {
        self.outputs.as_str()
    }

    /// The lock file, next to the directory.
    pub fn lock(&self) -> &str
        ensures { result.now ≡ string_bytes self.now.lock }
    {
        self.lock.as_str()
    }

    /// The directory in which it lies.
    pub fn parent(&self) -> &str
        ensures { result.now ≡ string_bytes self.now.parent }
    {
        self.parent.as_str()
    }

    /// The file of this name in the spool directory, as this process reaches it.
    pub fn file(&self, alloc: Global, name: &Name) -> Result<String, AllocError>
        ensures { IfOk result (λ path. string_bytes path ≡ file_in (string_bytes self.now.directory) name.now) }
    {
        file_path(alloc, self.directory.as_str(), name)
    }

    /// The same, in the place of another path.
    pub fn put_file(&self, path: &mut String, name: &Name) -> Result<(), AllocError>
        ensures { OnOk result (string_bytes path.new ≡ file_in (string_bytes self.now.directory) name.now) }
    {
        put_within(path, self.directory.as_str(), name)
    }

    /// The same file, as each process reaches it.
    pub fn script(&self, alloc: Global, name: &Name) -> Result<String, AllocError>
        ensures path { IfOk result (λ path. string_bytes path ≡ file_in (string_bytes self.now.whole) name.now) }
        ensures absolute { IfOk result (λ path. IsAbsolute (string_bytes path)) }
    {
        file_path(alloc, self.whole.as_str(), name)
    }

    /// The file of this name in the directory of outputs.
    pub fn output(&self, alloc: Global, name: &Name) -> Result<String, AllocError>
        ensures path { IfOk result (λ path. string_bytes path ≡ file_in (string_bytes self.now.outputs) name.now) }
        ensures absolute { IfOk result (λ path. IsAbsolute (string_bytes path)) }
    {
        file_path(alloc, self.outputs.as_str(), name)
    }
}

fn joined_path(alloc: Global, directory: &str, after: &str) -> Result<String, AllocError>
    requires { IsAbsolute directory.now }
    ensures path { IfOk result (λ path. string_bytes path ≡ directory.now ++ after.now) }
    ensures absolute { IfOk result (λ path. IsAbsolute (string_bytes path)) }
{
    let mut path = String::from_str(alloc, directory)?;
    path.push_str(after)?;
    Ok(path)
}

/// The file of this name in a directory.
pub fn file_path(alloc: Global, directory: &str, name: &Name) -> Result<String, AllocError>
    ensures path { IfOk result (λ path. string_bytes path ≡ file_in directory.now name.now) }
    ensures absolute { IfOk result (λ path. IsAbsolute directory.now → IsAbsolute (string_bytes path)) }
{
    let length = directory.len().saturating_add(name.as_bytes().len());
    let mut path = String::with_capacity(alloc, length.saturating_add(1))?;
    put_within(&mut path, directory, name)?;
    Ok(path)
}

// The same path, in the place of another.
fn put_within(path: &mut String, directory: &str, name: &Name) -> Result<(), AllocError>
    ensures { OnOk result (string_bytes path.new ≡ file_in directory.now name.now) }
{
    // Each byte of a name is one of ASCII.
    let text = unsafe { std::str::from_utf8_unchecked(name.as_bytes()) };
    path.clear();
    path.push_str(directory)?;
    path.push('/')?;
    path.push_str(text)?;
    Ok(())
}
