//! The procedures that a statement may call.

ghost use Rattle.std.specs.Prelude.{◌≡◌, ◌&&◌, bytes_eq};
ghost use Rattle.st_parse.specs.Procedures.{all_procedures, definition_name, procedure_name, procedure_named, procedure_package, thesaurus_call_name};

/// A procedure of CTX_DDL that defines something for indexes.
#[derive(Clone, Copy, Debug, PartialEq, Eq)]
pub enum Definition {
    CreatePreference,
    SetAttribute,
    CreateStoplist,
    AddStopword,
    CreateSectionGroup,
    AddZoneSection,
    AddFieldSection,
    AddSpecialSection,
    CreateIndexSet,
    AddIndex,
}

/// A procedure of CTX_THES, which makes a thesaurus or states a relation of its terms.
#[derive(Clone, Copy, Debug, PartialEq, Eq)]
pub enum ThesaurusCall {
    CreateThesaurus,
    CreateRelation,
}

/// A procedure.
#[derive(Clone, Copy, Debug, PartialEq, Eq)]
pub enum Procedure {
    /// CTX_DOC.POLICY_TOKENS.
    PolicyTokens,
    /// CTX_DDL.SYNC_INDEX.
    SyncIndex,
    /// CTX_DDL.OPTIMIZE_INDEX.
    OptimizeIndex,
    /// CTX_QUERY.RESULT_SET.
    ResultSet,
    /// One of CTX_DDL that defines something for indexes.
    Define(Definition),
    /// One of CTX_THES.
    Thesaurus(ThesaurusCall),
}

/// All procedures.
const ALL_PROCEDURES: [Procedure; 16] = [
    Procedure::PolicyTokens,
    Procedure::SyncIndex,
    Procedure::OptimizeIndex,
    Procedure::ResultSet,
    Procedure::Define(Definition::CreatePreference),
    Procedure::Define(Definition::SetAttribute),
    Procedure::Define(Definition::CreateStoplist),
    Procedure::Define(Definition::AddStopword),
    Procedure::Define(Definition::CreateSectionGroup),
    Procedure::Define(Definition::AddZoneSection),
    Procedure::Define(Definition::AddFieldSection),
    Procedure::Define(Definition::AddSpecialSection),
    Procedure::Define(Definition::CreateIndexSet),
    Procedure::Define(Definition::AddIndex),
    Procedure::Thesaurus(ThesaurusCall::CreateThesaurus),
    Procedure::Thesaurus(ThesaurusCall::CreateRelation),
];

impl Definition {
    /// The name of the procedure, in lower case.
    fn name(self) -> &'static str
        ensures { result.now ≡ definition_name self }
    {
        match self {
            Definition::CreatePreference => "create_preference",
            Definition::SetAttribute => "set_attribute",
            Definition::CreateStoplist => "create_stoplist",
            Definition::AddStopword => "add_stopword",
            Definition::CreateSectionGroup => "create_section_group",
            Definition::AddZoneSection => "add_zone_section",
            Definition::AddFieldSection => "add_field_section",
            Definition::AddSpecialSection => "add_special_section",
            Definition::CreateIndexSet => "create_index_set",
            Definition::AddIndex => "add_index",
        }
    }
}

impl ThesaurusCall {
    /// The name of the procedure, in lower case.
    fn name(self) -> &'static str
        ensures { result.now ≡ thesaurus_call_name self }
    {
        match self {
            ThesaurusCall::CreateThesaurus => "create_thesaurus",
            ThesaurusCall::CreateRelation => "create_relation",
        }
    }
}

impl Procedure {
    /// The name of its package, in lower case.
    pub fn package(self) -> &'static str
        ensures { result.now ≡ procedure_package self }
    {
        match self {
            Procedure::PolicyTokens => "ctx_doc",
            Procedure::SyncIndex | Procedure::OptimizeIndex | Procedure::Define(_) => "ctx_ddl",
            Procedure::ResultSet => "ctx_query",
            Procedure::Thesaurus(_) => "ctx_thes",
        }
    }

    /// Its name in the package, in lower case.
    pub fn name(self) -> &'static str
        ensures { result.now ≡ procedure_name self }
    {
        match self {
            Procedure::PolicyTokens => "policy_tokens",
            Procedure::SyncIndex => "sync_index",
            Procedure::OptimizeIndex => "optimize_index",
            Procedure::ResultSet => "result_set",
            Procedure::Define(definition) => definition.name(),
            Procedure::Thesaurus(call) => call.name(),
        }
    }

    /// Whether these are the names of its package and of it.
    fn is_named(self, pack: &str, name: &str) -> bool
        ensures { result ≡ (bytes_eq (procedure_package self) pack.now && bytes_eq (procedure_name self) name.now) }
    {
        self.package() == pack && self.name() == name
    }

    /// The procedure of these names, which are given in lower case; None where there is none. Its cost is the number of procedures.
    pub fn named(pack: &str, name: &str) -> Option<Procedure>
        ensures { result ≡ procedure_named pack.now name.now }
    {
        let mut rest = ALL_PROCEDURES.as_slice();
        while let [first, later @ ..] = rest {
            if first.is_named(pack, name) {
                return Some(*first);
            }
            rest = later;
        }
        None
    }
}
