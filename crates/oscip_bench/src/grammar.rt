//! Generated Oberon source: `$` and a letter denote one of several templates, or a name.

use crate::random::{Random, name_of, push_number};
use std::alloc::{AllocError, Global};

/// The maximum number of letters that are expanded in one template. Expansion ends long before.
const MOST: u64 = 1_000_000;

const STATEMENTS: &[&[u8]] = &[
    b"    $S;\n",
    b"    $S;\n",
    b"    $S;\n",
    b"    $S;\n    $S;\n",
    b"    (* $w $w $w $w $w $w $w *)\n    $S;\n",
    b"    IF $C THEN\n      $S\n    END;\n",
    b"    IF $C THEN\n      $S;\n      $S\n    ELSIF $C THEN\n      $S\n    ELSE\n      $S\n    END;\n",
    b"    WHILE $C DO\n      $S;\n      $S;\n      IF $C THEN $S ELSE $S END\n    END;\n",
    b"    REPEAT\n      $S;\n      FOR $v := 0 TO $E DO $S END\n    UNTIL $C;\n",
    b"    FOR $v := $n TO $E DO\n      $S;\n      WHILE $C DO $S; $S END\n    END;\n",
    b"    CASE $v OF\n      0, 1: $S\n    | 2..5:\n      $S;\n      $S\n    | 6, 9: $S\n    END;\n",
];

const SIMPLE: &[&[u8]] = &[
    b"$v := $E",
    b"$v := $E + $E",
    b"$v := $E",
    b"$p.$f := $E",
    b"$p.$f := $E - $L",
    b"$t[$v, $d] := $E",
    b"$p := $p.next",
    b"$g := $E",
    b"done := $C",
    b"INC($v)",
    b"$X",
    b"$X",
    b"$P($E)",
    b"$P($E)",
];

const CONDITIONS: &[&[u8]] = &[
    b"$E > $E",
    b"$E <= $L",
    b"$p # NIL",
    b"~done",
    b"$v IN {$k, $d..2$d}",
    b"($E >= $L) & ($L # $E)",
    b"($E = $L) OR ($L < $L)",
];

const EXPRESSIONS: &[&[u8]] = &[
    b"$L",
    b"$L",
    b"$L + $L",
    b"$L * $L - $L",
    b"($L + $L) DIV 1$d",
    b"$L MOD 3$d",
    b"$p.data[$v]",
    b"$P($L, $L)",
    b"($L - $n) * $Y",
];

const LEAVES: &[&[u8]] = &[
    b"$v",
    b"$v",
    b"$v",
    b"$v",
    b"$v",
    b"$n",
    b"$n",
    b"$k",
    b"$p.$f",
    b"$p.$f",
    b"$g",
    b"$Y",
    b"$t[$v, $d]",
];

const CALLS: &[&[u8]] = &[b"$i.Put($E)", b"$i.Mark($E)", b"$g := $i.Measure($L)"];

const VALUES: &[&[u8]] = &[b"$i.Limit", b"$i.Size", b"$i.total"];

pub const VERBS: &[&[u8]] = &[
    b"Find", b"Insert", b"Remove", b"Draw", b"Open", b"Close", b"Read", b"Write", b"Copy", b"Move",
    b"Store", b"Scan", b"Next", b"Count", b"Check", b"Merge", b"Split", b"Swap", b"Init", b"Sort",
];

pub const NOUNS: &[&[u8]] = &[
    b"Line", b"Text", b"Frame", b"Block", b"Item", b"Entry", b"Sector", b"Buffer", b"Token",
    b"Symbol", b"Node", b"Path", b"Window", b"Pattern", b"Key", b"Page", b"Table", b"Event",
];

pub const FIELDS: &[&[u8]] = &[
    b"key", b"len", b"pos", b"width", b"height", b"left", b"right", b"size", b"color", b"state",
    b"mode", b"offset",
];

pub const LOCALS: &[&[u8]] = &[
    b"i", b"j", b"k", b"n", b"m", b"x", b"y", b"w", b"h", b"pos", b"len", b"sum", b"key", b"val",
    b"beg", b"end", b"lim", b"org", b"dx", b"dy", b"adr", b"min",
];

const WORDS: &[&[u8]] = &[
    b"the", b"of", b"a", b"next", b"last", b"entry", b"list", b"where", b"it", b"was", b"found",
    b"in", b"order", b"to", b"keep", b"its", b"place", b"no", b"more", b"than", b"one", b"line",
    b"each", b"is", b"read", b"before", b"others",
];

/// The number of variables of a procedure. The number of fields of a record cycles up to it.
pub const VARIABLES: usize = 5;

/// A builder of the source of one module.
#[derive(Drop)]
pub struct SourceBuilder {
    alloc: Global,
    pub text: Vec<u8>,
    pub random: Random,
    /// The number of constants, of types and of variables that the module declares.
    pub width: u64,
    /// The number after each of the module's own names, none for 0. With different numbers modules share no names.
    pub suffix: u64,
    /// Whether some of its procedures use undeclared names.
    pub undeclared: bool,
    /// The numbers of the imported modules.
    pub imports: Vec<u64>,
    /// The number of procedures so far.
    pub procedures: u64,
    /// The index of the procedure's first variable in `LOCALS`, and the number of its pointers' type.
    pub own: usize,
    pub at: u64,
}

/// The element at this index, modulo the number of elements.
fn round(texts: &[&'static [u8]], at: usize) -> &'static [u8] {
    if texts.is_empty() {
        return b"";
    }
    texts[at % texts.len()]
}

impl SourceBuilder {
    pub fn new(alloc: Global, seed: u64, width: u64, suffix: u64) -> SourceBuilder {
        SourceBuilder {
            alloc,
            text: Vec::new(alloc),
            random: Random::new(seed),
            width,
            suffix,
            undeclared: false,
            imports: Vec::new(alloc),
            procedures: 0,
            own: 0,
            at: 0,
        }
    }

    pub fn put(&mut self, bytes: &[u8]) -> Result<(), AllocError> {
        self.text.extend_from_slice(bytes)
    }

    pub fn number(&mut self, number: u64) -> Result<(), AllocError> {
        push_number(&mut self.text, number)
    }

    /// Appends a name of the module itself: two words and the module's number.
    pub fn name(&mut self, first: &[u8], second: &[u8]) -> Result<(), AllocError> {
        self.put(first)?;
        self.put(second)?;
        if self.suffix != 0 {
            self.number(self.suffix)?;
        }
        Ok(())
    }

    pub fn constant(&mut self, number: u64) -> Result<(), AllocError> {
        self.name(round(NOUNS, number as usize), b"Max")
    }

    pub fn variable(&mut self, number: u64) -> Result<(), AllocError> {
        self.name(round(FIELDS, number as usize), b"All")
    }

    pub fn type_name(&mut self, number: u64) -> Result<(), AllocError> {
        self.name(round(NOUNS, number as usize), b"")
    }

    pub fn field(&mut self, of: u64, number: u64) -> Result<(), AllocError> {
        let at = (of as usize).wrapping_mul(3).wrapping_add(number as usize);
        self.put(round(FIELDS, at))
    }

    pub fn local(&mut self, number: usize) -> Result<(), AllocError> {
        self.put(round(LOCALS, self.own.wrapping_add(number)))
    }

    /// Appends the name of a procedure. Later procedures have a number at the end.
    pub fn procedure(&mut self, number: u64) -> Result<(), AllocError> {
        let (verb, noun) = (number as usize, number as usize / VERBS.len());
        self.name(round(VERBS, verb), round(NOUNS, noun))?;
        if number >= 360 {
            self.put(b"N")?;
            self.number(number)?;
        }
        Ok(())
    }

    /// Appends the name of an import in this module: that of the imported module, or an alias.
    pub fn alias(&mut self, module: u64) -> Result<(), AllocError> {
        let name = name_of(module);
        if module % 5 == 0 {
            self.put(b"M")?;
            return self.number(module);
        }
        self.put(name.as_slice())
    }

    fn any_alias(&mut self) -> Result<(), AllocError> {
        let count = self.imports.len();
        if count == 0 {
            return Ok(());
        }
        let at = self.random.below(count as u64) as usize;
        let module = self.imports[at];
        self.alias(module)
    }

    /// Appends the name of one of the last procedures, or of a predeclared one if there is none.
    fn any_procedure(&mut self) -> Result<(), AllocError> {
        if self.procedures == 0 {
            return self.put(b"ABS");
        }
        let back = 1 + self.random.below(12);
        self.procedure(self.procedures.saturating_sub(back))
    }

    fn any_below_width(&mut self) -> u64 {
        if self.width == 0 {
            return 0;
        }
        self.random.below(self.width)
    }

    /// Appends the name or the number that a letter denotes.
    fn word(&mut self, letter: u8) -> Result<(), AllocError> {
        match letter {
            b'v' => {
                let number = self.random.below(VARIABLES as u64) as usize;
                self.local(number)
            }
            b'n' => {
                let number = self.random.below(64);
                self.number(number)
            }
            b'd' => {
                let number = self.random.below(8);
                self.number(number)
            }
            b'p' => {
                let name = self.random.pick(&[b"p", b"q"]);
                self.put(name)
            }
            b'f' => {
                let number = self.random.below(4);
                self.field(self.at, number)
            }
            b't' => {
                let name = self.random.pick(&[b"table", b"grid"]);
                self.put(name)
            }
            b'w' => {
                let word = self.random.pick(WORDS);
                self.put(word)
            }
            _ => self.declared(letter),
        }
    }

    /// Appends a name that the module declares.
    fn declared(&mut self, letter: u8) -> Result<(), AllocError> {
        match letter {
            b'k' => {
                let number = self.any_below_width();
                self.constant(number)
            }
            b'g' => {
                let number = self.any_below_width();
                self.variable(number)
            }
            b'i' => self.any_alias(),
            _ => self.any_procedure(),
        }
    }

    /// One of the templates that a letter denotes, or `None` if it denotes a name or a number.
    fn rule(&mut self, letter: u8) -> Option<&'static [u8]> {
        let single_file = self.imports.is_empty();
        match letter {
            b'S' => Some(self.random.pick(SIMPLE)),
            b'C' => Some(self.random.pick(CONDITIONS)),
            b'E' => Some(self.random.pick(EXPRESSIONS)),
            b'L' => Some(self.random.pick(LEAVES)),
            b'X' if single_file => Some(b"$v := $v + $n"),
            b'X' => Some(self.random.pick(CALLS)),
            b'Y' if single_file => Some(b"$k"),
            b'Y' => Some(self.random.pick(VALUES)),
            _ => None,
        }
    }

    /// Appends a template with its letters expanded.
    pub fn expand(&mut self, text: &'static [u8]) -> Result<(), AllocError> {
        let mut open = Vec::new(self.alloc);
        let mut rest = text;
        for _ in 0..MOST {
            let Some(at) = rest.iter().position(|byte| *byte == b'$') else {
                self.put(rest)?;
                let Some(next) = open.pop() else {
                    return Ok(());
                };
                rest = next;
                continue;
            };
            self.put(&rest[..at])?;
            let Some(letter) = rest.get(at + 1).copied() else {
                return Ok(());
            };
            let after = &rest[at + 2..];
            match self.rule(letter) {
                Some(rule) => {
                    open.push(after)?;
                    rest = rule;
                }
                None => {
                    self.word(letter)?;
                    rest = after;
                }
            }
        }
        Ok(())
    }

    pub fn statement(&mut self) -> Result<(), AllocError> {
        let text = self.random.pick(STATEMENTS);
        self.expand(text)
    }
}
