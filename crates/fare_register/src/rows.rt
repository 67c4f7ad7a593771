ghost use Rattle.std.specs.Prelude.{◌≡◌, ◌<◌, ◌∷◌, [], ℕ, MatchOption};
ghost use Rattle.fare_scheme.specs.declared.entry.Product.{Product};
ghost use Rattle.fare_register.specs.Registers.{product_numbers, OwnerFits};
ghost use Rattle.fare_register.specs.Sold.{entry_of};

// An id of 16 bits and a number.
pub(crate) fn pair_of(row: &[u32]) -> Option<(u16, u32)>
    ensures { MatchOption result ((id n : ℕ) → id < 65536 → row.now ≡ id ∷ n ∷ [] → ⊥) (λ pair. (pair.0 < 65536) × (row.now ≡ pair.0 ∷ pair.1 ∷ [])) }
{
    let [id, number] = row else {
        return None;
    };
    let Ok(id) = u16::try_from(*id) else {
        return None;
    };
    Some((id, *number))
}

// Two ids of 16 bits.
pub(crate) fn ids_of(row: &[u32]) -> Option<(u16, u16)>
    ensures { MatchOption result ((id parent : ℕ) → id < 65536 → parent < 65536 → row.now ≡ id ∷ parent ∷ [] → ⊥) (λ ids. (ids.0 < 65536) × (ids.1 < 65536) × (row.now ≡ ids.0 ∷ ids.1 ∷ [])) }
{
    let [id, parent] = row else {
        return None;
    };
    let (Ok(id), Ok(parent)) = (u16::try_from(*id), u16::try_from(*parent)) else {
        return None;
    };
    Some((id, parent))
}

// An id of 16 bits.
pub(crate) fn id_of(row: &[u32]) -> Option<u16>
    ensures { MatchOption result ((id : ℕ) → id < 65536 → row.now ≡ id ∷ [] → ⊥) (λ id. (id < 65536) × (row.now ≡ id ∷ [])) }
{
    let [id] = row else {
        return None;
    };
    u16::try_from(*id).ok()
}

// A device with its station and its buffer.
pub(crate) fn placed_of(row: &[u32]) -> Option<(u32, u16, u32)>
    ensures { MatchOption result ((id station buffer : ℕ) → station < 65536 → row.now ≡ id ∷ station ∷ buffer ∷ [] → ⊥) (λ placed. (placed.1 < 65536) × (row.now ≡ placed.0 ∷ placed.1 ∷ placed.2 ∷ [])) }
{
    let [id, station, buffer] = row else {
        return None;
    };
    let Ok(station) = u16::try_from(*station) else {
        return None;
    };
    Some((*id, station, *buffer))
}

// A byte.
pub(crate) fn byte_of(row: &[u32]) -> Option<u8>
    ensures { MatchOption result ((byte : ℕ) → byte < 256 → row.now ≡ byte ∷ [] → ⊥) (λ byte. (byte < 256) × (row.now ≡ byte ∷ [])) }
{
    let [byte] = row else {
        return None;
    };
    u8::try_from(*byte).ok()
}

// A product with its owner, its fare, its caps and its window.
#[derive(Clone, Copy)]
pub(crate) struct Sold {
    pub(crate) product: u32,
    pub(crate) owner: u16,
    pub(crate) fare: u32,
    pub(crate) daily: u32,
    pub(crate) weekly: u32,
    pub(crate) window: u32,
}

// A product.
pub(crate) fn sold_of(row: &[u32]) -> Option<Sold>
    ensures { MatchOption result ((p : ℕ × Product) → OwnerFits p → row.now ≡ product_numbers p → ⊥) (λ sold. OwnerFits (entry_of sold) × (row.now ≡ product_numbers (entry_of sold))) }
{
    let [product, owner, fare, daily, weekly, window] = row else {
        return None;
    };
    let Ok(owner) = u16::try_from(*owner) else {
        return None;
    };
    Some(Sold {
        product: *product,
        owner,
        fare: *fare,
        daily: *daily,
        weekly: *weekly,
        window: *window,
    })
}
