ghost use Rattle.std.specs.Prelude.{◌≡◌, ◌≢◌, ℕ, ℤ, List, ◌≤◌, ◌+◌, ◌-◌, ◌++◌, ◌∷◌, [], length, Some, None, OnOk, IsOk, IfSome};
ghost use Rattle.std.specs.Option.{option_map};
ghost use Rattle.slab.specs.Slab.{get, slab_len, HasRoomFor, Updates};
ghost use Rattle.lrat_check.specs.Arena.{clause_in, out_of, slot_for, room_of};

use crate::keys::Entry;
use lola_bits::Memory;
use slab::Slab;

/// Where the literals of a clause in force stand in the arena.
#[derive(Clone, Copy, Debug, PartialEq, Eq)]
pub struct Slot {
    pub id: u64,
    pub start: usize,
    pub length: usize,
}

/// The clause of an id in the slot under its key, where the slot is still that of the id.
#[inline(always)]
pub(crate) fn clause_in<'a>(
    arena: &'a [i32],
    slots: &Slab<Slot>,
    id: u64,
    key: usize,
) -> Option<&'a [i32]>
    requires within { IfSome (get slots.now key) (λ slot. slot.start + slot.length ≤ length arena.now) }
    ensures { option_map (λ c. c.now) result ≡ clause_in arena.now id (get slots.now key) }
{
    match slots.get(key) {
        None => None,
        Some(slot) => {
            if slot.id == id {
                let (_, rest) = arena.split_at(slot.start);
                let (clause, _) = rest.split_at(slot.length);
                Some(clause)
            } else {
                None
            }
        }
    }
}

/// Makes room for so many more clauses and literals. For want of memory some of the room may have been made.
pub(crate) fn make_room(
    arena: &mut Vec<i32>,
    slots: &mut Slab<Slot>,
    entries: &mut Vec<Entry>,
    clauses: usize,
    literals: usize,
) -> Result<(), Memory>
    ensures arena { arena.new.items ≡ arena.old.items }
    ensures arena_room { room_of arena.old ≤ room_of arena.new }
    ensures slots { slots.new ≡ record slots.old { capacity = slots.new.capacity } }
    ensures slots_room { slots.old.capacity ≤ slots.new.capacity }
    ensures entries { entries.new.items ≡ entries.old.items }
    ensures entries_room { room_of entries.old ≤ room_of entries.new }
    ensures ok_arena { OnOk result (literals ≤ room_of arena.new) }
    ensures ok_slots { OnOk result (HasRoomFor slots.new clauses) }
    ensures ok_entries { OnOk result (clauses ≤ room_of entries.new) }
    ensures succeeds { literals ≤ room_of arena.old → clauses ≤ slots.old.capacity - slab_len slots.old → clauses ≤ room_of entries.old → IsOk result }
{
    match entries.reserve(clauses) {
        Ok(()) => {}
        Err(_) => return Err(Memory),
    }
    if slots.capacity() - slots.len() < clauses {
        match slots.reserve(clauses) {
            Ok(()) => {}
            Err(_) => return Err(Memory),
        }
    }
    match arena.reserve(literals) {
        Ok(()) => Ok(()),
        Err(_) => Err(Memory),
    }
}

/// Appends a clause, where there is room.
pub(crate) fn append(
    arena: &mut Vec<i32>,
    slots: &mut Slab<Slot>,
    entries: &mut Vec<Entry>,
    id: u64,
    clause: &[i32],
)
    requires arena { length clause.now ≤ room_of arena.old }
    requires slots { HasRoomFor slots.old 1 }
    requires entries { 1 ≤ room_of entries.old }
    ensures arena { arena.new.items ≡ arena.old.items ++ clause.now }
    ensures arena_room { room_of arena.old ≤ room_of arena.new + length clause.now }
    ensures vacant { get slots.old slots.old.vacant_key ≡ None }
    ensures slots { Updates slots.old slots.new slots.old.vacant_key (Some (slot_for id arena.old.items clause.now)) }
    ensures slots_len { slab_len slots.new ≡ slab_len slots.old + 1 }
    ensures slots_room { slots.new.capacity ≡ slots.old.capacity }
    ensures entries { entries.new.items ≡ entries.old.items ++ record { id = id; key = slots.old.vacant_key } ∷ [] }
    ensures entries_room { room_of entries.old ≤ room_of entries.new + 1 }
{
    let start = arena.as_slice().len();
    match arena.extend_from_slice(clause) {
        Ok(()) => {}
        Err(_) => return,
    }
    let key = slots.insert_reserved(Slot {
        id,
        start,
        length: clause.len(),
    });
    match entries.push(Entry { id, key }) {
        Ok(()) => {}
        Err(_) => {}
    }
}

/// Empties the slot under a key where it is that of an id, and answers how many literals it had.
pub(crate) fn take_out(slots: &mut Slab<Slot>, id: u64, key: usize) -> usize
    ensures changed { get slots.new key ≡ out_of id (get slots.old key) }
    ensures others { (other : ℕ) → other ≢ key → get slots.new other ≡ get slots.old other }
    ensures len { slab_len slots.new ≤ slab_len slots.old }
    ensures room { slots.new.capacity ≡ slots.old.capacity }
{
    let length = match slots.get(key) {
        None => return 0,
        Some(slot) => {
            if slot.id != id {
                return 0;
            }
            slot.length
        }
    };
    slots.try_remove(key);
    length
}
