//! The modules that a name of a rule denotes: the module of this name, or the modules of the set. The flags of a set have an index for each
//! file, and after these an index for each module.
ghost use Rattle.std.specs.Prelude.{◌≡◌, ◌↔◌, ◌⊎◌, ◌<◌, ◌≤◌, ℕ, AllPairs, Contains, IfOk, List, Some, length, true, vec_len};
ghost use Rattle.digraph.specs.Marks.{marked};
ghost use Rattle.cut_rules.specs.Builders.{HasFlaggedIndex, IsAtIndex, IsMember};
ghost use Rattle.cut_rules.specs.Judged.{IsDenoted};

use crate::{File, Rules};
use cut_net::Net;
use std::alloc::{AllocError, Global};

/// The module that an index of a set's flags denotes. An index below the number of files denotes the module of the file; any other index
/// denotes the module whose number is the index less the number of files.
fn module_at(files: &[File<'_>], place: usize) -> usize
    // The index is that of a file of the resulting module, or, after the indices of all files, the module's own.
    ensures { IsAtIndex files.now place result }
{
    if place < files.len() {
        files[place].module as usize
    } else {
        place - files.len()
    }
}

/// Sets the flag of the module with number `node`. Nothing happens if the flags end before that number.
fn flag_module(flags: &mut [bool], node: usize)
    // The number of flags is unchanged.
    ensures size { length flags.new ≡ length flags.old }
    // After the call a module is flagged if and only if it was before, or has the number `node`.
    ensures flags { (m : ℕ) → m < length flags.old → (marked flags.new m ≡ true) ↔ ((marked flags.old m ≡ true) ⊎ (node ≡ m)) }
{
    if node < flags.len() {
        flags[node] = true;
    }
}

/// Sets the flag of each module that a flagged index in `places` denotes. `places` has an index for each file, and after these one for each
/// module.
fn flag_modules(files: &[File<'_>], places: &[bool], flags: &mut [bool])
    // The number of flags is unchanged.
    ensures size { length flags.new ≡ length flags.old }
    // After the call a module is flagged if and only if it was before, or a flagged index denotes it.
    ensures flags { (m : ℕ) → m < length flags.old → (marked flags.new m ≡ true) ↔ ((marked flags.old m ≡ true) ⊎ HasFlaggedIndex files.now places.now m) }
{
    for place in 0..places.len() {
        if places[place] {
            flag_module(flags, module_at(files, place));
        }
    }
}

/// The numbers whose flag is set, in ascending order.
fn flagged_nodes(alloc: Global, flags: &[bool]) -> Result<Vec<u32>, AllocError>
    // A network has at most 8,192 modules, so a number fits 32 bits.
    requires { length flags.now ≤ 8192 }
    // With `Ok` a number is in the list if and only if its flag is set.
    ensures elements { IfOk result (λ nodes. (v : ℕ) → Contains nodes.items v ↔ (marked flags.now v ≡ true)) }
    // With `Ok` the numbers are strictly ascending.
    ensures ascending { IfOk result (λ nodes. AllPairs (λ v w. v < w) nodes.items) }
{
    let mut nodes = Vec::new(alloc);
    for node in 0..flags.len() {
        if flags[node] {
            nodes.push(node as u32)?;
        }
    }
    Ok(nodes)
}

impl Rules<'_> {
    /// Sets the flags of the modules in the set that the name with number `name` denotes. Nothing happens if it denotes no set.
    fn flag_set_members(&self, flags: &mut [bool], name: usize)
        // The number of flags is unchanged.
        ensures size { length flags.new ≡ length flags.old }
        // After the call a module is flagged if and only if it was before, or is in the set.
        ensures flags { (m : ℕ) → m < length flags.old → (marked flags.new m ≡ true) ↔ ((marked flags.old m ≡ true) ⊎ IsMember self.now.files.now self.now.table name m) }
    {
        if name < self.table.modules {
            return;
        }
        let place = name - self.table.modules;
        if place >= self.table.sets.len() {
            return;
        }
        flag_modules(self.files, self.table.sets[place].flags.as_slice(), flags);
    }

    /// Sets the flags of the modules that the name with this number denotes: the module itself, or those in the set.
    fn flag_modules_of_name(&self, flags: &mut [bool], name: usize)
        // The number of flags is unchanged.
        ensures size { length flags.new ≡ length flags.old }
        // After the call a module is flagged if and only if it was before, or the name denotes it.
        ensures flags { (m : ℕ) → m < length flags.old → (marked flags.new m ≡ true) ↔ ((marked flags.old m ≡ true) ⊎ IsDenoted self.now name m) }
    {
        flag_module(flags, name);
        self.flag_set_members(flags, name);
    }

    /// For each module whether the name with this number denotes it: it is the named module, or it is in the named set.
    pub(crate) fn flags(
        &self,
        alloc: Global,
        net: &Net,
        name: usize,
    ) -> Result<Vec<bool>, AllocError>
        // With `Ok` there is a flag for each module of the network.
        ensures size { IfOk result (λ flags. vec_len flags ≡ length net.now.names) }
        // With `Ok` a module is flagged if and only if the name denotes it.
        ensures elements { IfOk result (λ flags. (m : ℕ) → m < length net.now.names → (marked flags.items m ≡ true) ↔ IsDenoted self.now name m) }
    {
        let mut flags = vec![in alloc; false; net.nodes() as usize]?;
        self.flag_modules_of_name(flags.as_mut_slice(), name);
        Ok(flags)
    }

    /// The modules that the name with this number denotes, sorted.
    pub(crate) fn members_of(
        &self,
        alloc: Global,
        net: &Net,
        name: usize,
    ) -> Result<Vec<u32>, AllocError>
        // With `Ok` each number is that of a module of the network.
        ensures within { IfOk result (λ members. (m : ℕ) → Contains members.items m → m < length net.now.names) }
        // With `Ok` a module is in the list if and only if the name denotes it.
        ensures elements { IfOk result (λ members. (m : ℕ) → m < length net.now.names → Contains members.items m ↔ IsDenoted self.now name m) }
        // With `Ok` the numbers are strictly ascending.
        ensures ascending { IfOk result (λ members. AllPairs (λ v w. v < w) members.items) }
    {
        net.invariants();
        let flags = self.flags(alloc, net, name)?;
        let members = flagged_nodes(alloc, flags.as_slice())?;
        Ok(members)
    }
}
