//! Types as rows write them: words, each of which changes the stack of types that the earlier ones left. A keyword puts a type
//! on it, `s` and `u` say the sign of the topmost, `7:0` is a packed and `@7:0` an unpacked dimension, `enum@4` makes an
//! enumeration over the topmost that token 4 declares, `A=2'd0` is a name of it, `struct` an empty structure, and `.x` makes
//! the topmost a member x of the one below.
use std::alloc::Global;
use std::mem;
use std::sync::Arc;
use sve_bytes::{List, Name, NoMemory};
use sve_row::{name_of, offset_of, value_of, words_of};
use sve_types::{Atom, Base, Range, Ty, Vec_};

/// The type that words write, or nothing where they are of no form.
pub fn type_of(alloc: Global, words: &str) -> Result<Option<Ty>, NoMemory> {
    let mut stack = Vec::new(alloc);
    for word in &words_of(alloc, words)? {
        if !is_done(alloc, &mut stack, word)? {
            return Ok(None);
        }
    }
    Ok(stack.pop())
}

/// Does to the stack what a word says, and says whether it says anything.
fn is_done(alloc: Global, stack: &mut Vec<Ty>, word: &str) -> Result<bool, NoMemory> {
    if let Some(base) = base_of(alloc, word)? {
        stack.push(plain(alloc, base))?;
        return Ok(true);
    }
    if let Some(token) = word.strip_prefix("enum@") {
        return is_enumeration(alloc, stack, token);
    }
    if let Some(member) = word.strip_prefix(".") {
        return is_member(alloc, stack, member);
    }
    match stack.last_mut() {
        Some(top) => is_changed(alloc, top, word),
        None => Ok(false),
    }
}

/// The integer types with a width of their own, as keywords name them.
const ATOMS: &[(&str, Atom)] = &[
    ("byte", Atom::Byte),
    ("shortint", Atom::ShortInt),
    ("int", Atom::Int),
    ("longint", Atom::LongInt),
    ("integer", Atom::Integer),
    ("time", Atom::Time),
];

/// The integer types of one bit, as keywords name them.
const VECTORS: &[(&str, Vec_)] = &[
    ("bit", Vec_::Bit),
    ("logic", Vec_::Logic),
    ("reg", Vec_::Reg),
];

/// The integer type with a width of its own that a keyword names.
fn atom_of(word: &str) -> Option<Atom> {
    for (keyword, atom) in ATOMS {
        if *keyword == word {
            return Some(*atom);
        }
    }
    None
}

/// The integer type of one bit that a keyword names.
fn vector_of(word: &str) -> Option<Vec_> {
    for (keyword, vector) in VECTORS {
        if *keyword == word {
            return Some(*vector);
        }
    }
    None
}

/// A type that a keyword names.
fn base_of(alloc: Global, word: &str) -> Result<Option<Base>, NoMemory> {
    if let Some(atom) = atom_of(word) {
        return Ok(Some(Base::Atom(atom, atom != Atom::Time)));
    }
    if let Some(vector) = vector_of(word) {
        return Ok(Some(Base::Vector(vector, false)));
    }
    match word {
        "string" => Ok(Some(Base::Text)),
        "struct" => Ok(Some(Base::Struct {
            signed: false,
            members: Arc::new(alloc, Vec::new(alloc))?,
        })),
        _ => Ok(None),
    }
}

/// A type without dimensions.
fn plain(alloc: Global, base: Base) -> Ty {
    Ty {
        base,
        packed: List::of(Vec::new(alloc)),
        unpacked: List::of(Vec::new(alloc)),
    }
}

/// Adds an item to a list, which is empty where memory is wanting for it.
fn push<T: Drop>(alloc: Global, list: &mut List<T>, item: T) -> Result<(), NoMemory> {
    let mut items = mem::replace(list, List::of(Vec::new(alloc))).into_vec();
    items.push(item)?;
    *list = List::of(items);
    Ok(())
}

/// An enumeration over a type.
fn enumeration(alloc: Global, file: Name, token: u32, of: Ty) -> Result<Base, NoMemory> {
    let of = Box::new(alloc, of)?;
    Ok(Base::Enum {
        id: (file, 0, token),
        of,
        names: Arc::new(alloc, List::of(Vec::new(alloc)))?,
    })
}

/// Makes the topmost type an enumeration over it.
fn is_enumeration(alloc: Global, stack: &mut Vec<Ty>, token: &str) -> Result<bool, NoMemory> {
    let Some(token) = offset_of(token) else {
        return Ok(false);
    };
    let Some(file) = name_of(alloc, b"p.sv")? else {
        return Ok(false);
    };
    match stack.pop() {
        Some(of) => {
            let base = enumeration(alloc, file, token, of)?;
            stack.push(plain(alloc, base))?;
            Ok(true)
        }
        None => Ok(false),
    }
}

/// Makes a type a member of another, and says whether that is a structure of its own.
fn is_added(whole: &mut Ty, name: Name, member: Ty) -> Result<bool, NoMemory> {
    let Base::Struct { members, .. } = &mut whole.base else {
        return Ok(false);
    };
    let Some(members) = Arc::get_mut(members) else {
        return Ok(false);
    };
    members.push((name, member))?;
    Ok(true)
}

/// Makes the topmost type a member of the structure below.
fn is_member(alloc: Global, stack: &mut Vec<Ty>, name: &str) -> Result<bool, NoMemory> {
    let Some(name) = name_of(alloc, name.as_bytes())? else {
        return Ok(false);
    };
    let Some(member) = stack.pop() else {
        return Ok(false);
    };
    match stack.last_mut() {
        Some(whole) => is_added(whole, name, member),
        None => Ok(false),
    }
}

/// Changes a type as a word says.
fn is_changed(alloc: Global, ty: &mut Ty, word: &str) -> Result<bool, NoMemory> {
    if word == "s" || word == "u" {
        set_sign(&mut ty.base, word == "s");
        return Ok(true);
    }
    if let Some((name, value)) = word.split_once("=") {
        return is_name(alloc, &mut ty.base, name, value);
    }
    if let Some(bounds) = word.strip_prefix("@") {
        return is_range(alloc, &mut ty.unpacked, bounds);
    }
    is_range(alloc, &mut ty.packed, word)
}

/// Says whether what stands before the dimensions is signed.
fn set_sign(base: &mut Base, is_signed: bool) {
    match base {
        Base::Atom(_, signed) => *signed = is_signed,
        Base::Vector(_, signed) => *signed = is_signed,
        Base::Struct { signed, .. } => *signed = is_signed,
        _ => {}
    }
}

/// Adds the dimension between these bounds.
fn is_range(alloc: Global, ranges: &mut List<Range>, bounds: &str) -> Result<bool, NoMemory> {
    let (left, right) = bounds.split_once(":").unwrap_or((bounds, ""));
    let (Ok(left), Ok(right)) = (left.parse::<i32>(), right.parse::<i32>()) else {
        return Ok(false);
    };
    push(alloc, ranges, Range { left, right })?;
    Ok(true)
}

/// Adds a name with its value to an enumeration.
fn is_name(alloc: Global, base: &mut Base, name: &str, value: &str) -> Result<bool, NoMemory> {
    let Some(value) = value_of(value) else {
        return Ok(false);
    };
    let Some(name) = name_of(alloc, name.as_bytes())? else {
        return Ok(false);
    };
    let Base::Enum { names, .. } = base else {
        return Ok(false);
    };
    let Some(names) = Arc::get_mut(names) else {
        return Ok(false);
    };
    push(alloc, names, (name, value))?;
    Ok(true)
}
