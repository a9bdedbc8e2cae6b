//! The predeclared names, which every module may use without declaring them.
ghost use Rattle.std.specs.Prelude.{◌≡◌};
ghost use Rattle.std.specs.List.{list_any};
ghost use Rattle.std.specs.Str.{bytes_eq};
ghost use Rattle.ob_targets.specs.Predeclared.{basic_types, functions, is_predeclared, procedures};

/// Whether this is the name of one of the six basic types, which are predeclared.
fn is_basic_type(name: &[u8]) -> bool
    ensures { result ≡ list_any (bytes_eq name.now) basic_types }
{
    name == b"BOOLEAN".as_slice()
        || name == b"BYTE".as_slice()
        || name == b"CHAR".as_slice()
        || name == b"INTEGER".as_slice()
        || name == b"REAL".as_slice()
        || name == b"SET".as_slice()
}

/// Whether this is the name of one of the ten predeclared function procedures.
fn is_predeclared_function(name: &[u8]) -> bool
    ensures { result ≡ list_any (bytes_eq name.now) functions }
{
    name == b"ABS".as_slice()
        || name == b"ODD".as_slice()
        || name == b"LEN".as_slice()
        || name == b"LSL".as_slice()
        || name == b"ASR".as_slice()
        || name == b"ROR".as_slice()
        || name == b"FLOOR".as_slice()
        || name == b"FLT".as_slice()
        || name == b"ORD".as_slice()
        || name == b"CHR".as_slice()
}

/// Whether this is the name of one of the eight predeclared proper procedures.
fn is_predeclared_procedure(name: &[u8]) -> bool
    ensures { result ≡ list_any (bytes_eq name.now) procedures }
{
    name == b"INC".as_slice()
        || name == b"DEC".as_slice()
        || name == b"INCL".as_slice()
        || name == b"EXCL".as_slice()
        || name == b"NEW".as_slice()
        || name == b"ASSERT".as_slice()
        || name == b"PACK".as_slice()
        || name == b"UNPK".as_slice()
}

/// Returns whether a name, given as bytes, is predeclared (Oberon-07 report, sections 6.1 and 10.2).
pub fn is_predeclared(name: &[u8]) -> bool
    // The result is true if and only if the name is one of the six basic types, the ten function procedures and the eight proper
    // procedures.
    ensures { result ≡ is_predeclared name.now }
{
    is_basic_type(name) || is_predeclared_function(name) || is_predeclared_procedure(name)
}
