//! What a caller may do.
ghost use Rattle.std.specs.Prelude.{◌≡◌, ◌≢◌, ◌≤◌, false, length, true};
ghost use Rattle.soc_schema.specs.declared.permission.Permission.{Permission};

/// Something that a caller may do or see.
#[derive(Clone, Copy, PartialEq, Eq, Debug)]
pub enum Permission {
    /// To see what everybody may see. Each set has it.
    Public,
    /// To see the fields and annotations that may tell of a person.
    ProtectedData,
    /// To see the dumps as they came.
    ViewRawdump,
    /// To have crashes processed again, or before others.
    ReprocessCrashes,
    /// To run and to stop the service.
    Operate,
}

impl Permission {
    ghost use Rattle.soc_schema.specs.Permits.{permission_name};

    /// The word that stands for the permission in token files, in refusals and in the list of fields.
    pub fn name(self) -> &'static str
        ensures text { result.now ≡ permission_name self }
        ensures short { length result.now ≤ 20 }
    {
        match self {
            Permission::Public => "public",
            Permission::ProtectedData => "protected_data",
            Permission::ViewRawdump => "view_rawdump",
            Permission::ReprocessCrashes => "reprocess_crashes",
            Permission::Operate => "operate",
        }
    }
}

/// A set of permissions. `Permission::Public` is in each.
#[derive(Clone, Copy, PartialEq, Eq, Debug)]
pub struct Permissions {
    /// Whether the set has `Permission::ProtectedData`.
    pub protected_data: bool,
    /// Whether the set has `Permission::ViewRawdump`.
    pub view_rawdump: bool,
    /// Whether the set has `Permission::ReprocessCrashes`.
    pub reprocess_crashes: bool,
    /// Whether the set has `Permission::Operate`.
    pub operate: bool,
}

impl Permissions {
    ghost use Rattle.soc_schema.specs.Permits.{holds, public_alone, with_permission};

    /// The set that has `Permission::Public` alone.
    pub fn public() -> Permissions
        ensures alone { (q : Permission) → q ≢ Permission.Public → holds result q ≡ false }
        ensures value { result ≡ public_alone }
    {
        Permissions {
            protected_data: false,
            view_rawdump: false,
            reprocess_crashes: false,
            operate: false,
        }
    }

    /// Whether the set has the permission.
    pub fn has(&self, p: Permission) -> bool
        ensures { result ≡ holds self.now p }
    {
        match p {
            Permission::Public => true,
            Permission::ProtectedData => self.protected_data,
            Permission::ViewRawdump => self.view_rawdump,
            Permission::ReprocessCrashes => self.reprocess_crashes,
            Permission::Operate => self.operate,
        }
    }

    /// Puts the permission into the set.
    pub fn add(&mut self, p: Permission)
        ensures added { holds self.new p ≡ true }
        ensures others { (q : Permission) → q ≢ p → holds self.new q ≡ holds self.old q }
        ensures value { self.new ≡ with_permission self.old p }
    {
        match p {
            Permission::Public => {}
            Permission::ProtectedData => self.protected_data = true,
            Permission::ViewRawdump => self.view_rawdump = true,
            Permission::ReprocessCrashes => self.reprocess_crashes = true,
            Permission::Operate => self.operate = true,
        }
    }
}
