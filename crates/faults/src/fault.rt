//! A fault: its cause, its place and its layer, each known by a number.
ghost use Rattle.std.specs.Prelude.{◌≡◌, ◌≤◌};
ghost use Rattle.faults.specs.declared.fault.Cause.{Cause};
ghost use Rattle.faults.specs.declared.fault.Layer.{Layer};
ghost use Rattle.faults.specs.declared.fault.Layer.TheVariants.{Tables};
ghost use Rattle.faults.specs.Numbers.{cause_number, layer_number, layer_of, fault as fault_of};

/// The layer that a fault comes from.
#[derive(Clone, Copy, PartialEq, Eq, Debug)]
pub enum Layer {
    /// Settings, levels, their analyses, and walls.
    Tables = 1,
    /// The sheet and wall shares.
    Sheet = 2,
    /// Drifts.
    Drifts = 3,
    /// Slips.
    Slips = 4,
    /// The deck.
    Deck = 5,
}

/// Why a call refuses.
#[derive(Clone, Copy, PartialEq, Eq, Debug)]
pub enum Cause {
    /// A level's height is out of range.
    HeightRange = 1,
    /// A level's weight is out of range.
    WeightRange = 2,
    /// A level's gravity load is out of range.
    GravityRange = 3,
    /// The table of levels is full, and none stands at that height.
    LevelsFull = 4,
    /// No level stands at that height.
    LevelAbsent = 5,
    /// No setting has that number.
    SettingUnknown = 6,
    /// A setting's figure is out of its range.
    SettingRange = 7,
    /// A wall's position is out of range.
    PositionRange = 8,
    /// A wall's rigidity is out of range.
    RigidityRange = 9,
    /// The table of walls is full, and none stands at that position.
    WallsFull = 10,
    /// No wall stands at that position.
    WallAbsent = 11,
    /// The force that an analysis used is out of range.
    ForceUsedRange = 12,
    /// A deflection of an analysis is out of range.
    DeflectionRange = 13,
    /// There is no level.
    NoLevels = 14,
    /// A setting that the edition needs is absent.
    SettingAbsent = 15,
    /// The base shear is above what a sheet shows.
    ShearLimit = 16,
    /// A level's force cannot be told to within two units.
    ForceUncertain = 17,
    /// The caller's list or buffer is too short.
    ListShort = 18,
    /// A line of a deck has a wrong word, position, ending or number of fields.
    LineMalformed = 24,
    /// A field of a deck is no number or no edition.
    FieldMalformed = 25,
}

/// Why and where a call refuses.
#[derive(Clone, Copy, PartialEq, Eq, Debug)]
pub struct Fault {
    pub cause: Cause,
    pub place: u32,
    pub layer: Layer,
}

// A number is what the docs know a layer and a cause by, so it has that name: `u32::from(cause)` would be no plainer.
impl Layer {
    /// The number that a layer is known by, and no other layer.
    pub fn number(self) -> u32
        ensures value { result ≡ layer_number self }
        ensures own { (l : Layer) → result ≡ layer_number l → l ≡ self }
    {
        self as u32
    }
}

impl Cause {
    /// The number that a cause is known by, and no other cause.
    pub fn number(self) -> u32
        ensures value { result ≡ cause_number self }
        ensures own { (c : Cause) → result ≡ cause_number c → c ≡ self }
    {
        self as u32
    }

    /// The layer that a cause names: its own, but for a short list, which names the layer of the call that was made.
    fn layer(self, called: Layer) -> Layer
        ensures { result ≡ layer_of called self }
    {
        match self {
            Cause::HeightRange
            | Cause::WeightRange
            | Cause::GravityRange
            | Cause::LevelsFull
            | Cause::LevelAbsent
            | Cause::SettingUnknown
            | Cause::SettingRange
            | Cause::PositionRange
            | Cause::RigidityRange
            | Cause::WallsFull
            | Cause::WallAbsent
            | Cause::ForceUsedRange
            | Cause::DeflectionRange => Layer::Tables,
            Cause::NoLevels | Cause::SettingAbsent | Cause::ShearLimit | Cause::ForceUncertain =>
                Layer::Sheet,
            Cause::ListShort => called,
            Cause::LineMalformed | Cause::FieldMalformed => Layer::Deck,
        }
    }
}

impl Fault {
    /// The fault of a call of the layer `called`. The causes up to 13 are those of the tables, whatever was called.
    pub fn new(called: Layer, cause: Cause, place: u32) -> Fault
        ensures value { result ≡ fault_of called cause place }
        ensures tables { cause_number cause ≤ 13 → result.layer ≡ Tables }
    {
        Fault {
            cause,
            place,
            layer: cause.layer(called),
        }
    }
}
