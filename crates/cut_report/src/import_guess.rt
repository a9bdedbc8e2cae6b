//! A cursor into the network's imports, by which the names in a report's lines are found fast. Lines of a report are in the order of the
//! network's imports, so a line's import is mostly one of the first few after that of the previous line. If it isn't, its names are
//! looked up among all modules, with the same result.
ghost use Rattle.std.specs.Prelude.{◌≡◌, ◌≤◌, Some, IfSome, length};
ghost use Rattle.cut_net.specs.Network.{index_of};

use cut_net::Net;

/// The largest number of imports that are compared with a line before its names are looked up among all modules.
const MAX_COMPARED: usize = 8;

/// The index after that of the previous line's import, at which the comparison with the next line begins. It affects only the running time.
#[derive(Drop)]
pub(crate) struct ImportCursor {
    next_import: usize,
}

impl ImportCursor {
    /// The cursor at the first import.
    pub(crate) fn first() -> ImportCursor {
        ImportCursor { next_import: 0 }
    }

    /// Moves the cursor to the first import that comes after the pair `ends` of importer and imported module.
    pub(crate) fn move_past(&mut self, net: &Net, ends: (u32, u32)) {
        self.next_import = net.imports().partition_point(|import| {
            import.from < ends.0 || (import.from == ends.0 && import.to <= ends.1)
        });
    }

    /// The numbers of the modules with these two names, if one of the first `MAX_COMPARED` imports from the cursor on leads from the one to
    /// the other; the cursor is moved past that import. Otherwise `None`, and the cursor stays.
    pub(crate) fn find_ends_at_cursor(
        &mut self,
        net: &Net,
        from: &str,
        to: &str,
    ) -> Option<(u32, u32)>
        ensures from { IfSome result (λ ends. index_of net.now from.now ≡ Some ends.0) }
        ensures to { IfSome result (λ ends. index_of net.now to.now ≡ Some ends.1) }
    {
        net.invariants();
        let imports = net.imports();
        let begin = self.next_import;
        let end = imports.len().min(begin.saturating_add(MAX_COMPARED));
        for import_guess in begin..end {
            let import = imports[import_guess];
            if net.name(import.to) == to && net.name(import.from) == from {
                self.next_import = import_guess + 1;
                return Some((import.from, import.to));
            }
        }
        None
    }
}
