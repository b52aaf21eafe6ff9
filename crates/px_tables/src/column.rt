// The tables of the metadata, as data: Partition II, 22.
ghost use Rattle.std.specs.Prelude.{◌≡◌, ◌≤◌, length};
ghost use Rattle.px_tables.specs.Columns.{columns_of, table_named, tables_named, tag_bits};

/// A heap of the metadata: Partition II, 24.2.3 to 24.2.5.
#[derive(Clone, Copy, PartialEq, Eq)]
pub enum Heap {
    Strings,
    UserStrings,
    Guid,
    Blob,
}

/// A coded index, by the tables that it may name: Partition II, 24.2.6.
#[derive(Clone, Copy, PartialEq, Eq)]
pub enum CodedIndex {
    TypeDefOrRef,
    HasConstant,
    HasCustomAttribute,
    HasFieldMarshal,
    HasDeclSecurity,
    MemberRefParent,
    HasSemantics,
    MethodDefOrRef,
    MemberForwarded,
    Implementation,
    CustomAttributeType,
    ResolutionScope,
    TypeOrMethodDef,
}

impl CodedIndex {
    /// How many low bits say of which table the row is.
    pub fn tag_bits(self) -> u32
        ensures bits { result ≡ tag_bits self }
        ensures some { 1 ≤ result }
        ensures few { result ≤ 5 }
    {
        match self {
            CodedIndex::HasFieldMarshal
            | CodedIndex::HasSemantics
            | CodedIndex::MethodDefOrRef
            | CodedIndex::MemberForwarded
            | CodedIndex::TypeOrMethodDef => 1,
            CodedIndex::TypeDefOrRef
            | CodedIndex::HasConstant
            | CodedIndex::HasDeclSecurity
            | CodedIndex::Implementation
            | CodedIndex::ResolutionScope => 2,
            CodedIndex::MemberRefParent | CodedIndex::CustomAttributeType => 3,
            CodedIndex::HasCustomAttribute => 5,
        }
    }

    /// The tables that the index may name, by the number in these bits; some numbers name none.
    pub fn tables(self) -> &'static [Option<u8>]
        ensures { result.now ≡ tables_named self }
    {
        match self {
            CodedIndex::TypeDefOrRef => &[Some(0x02), Some(0x01), Some(0x1B)],
            CodedIndex::HasConstant => &[Some(0x04), Some(0x08), Some(0x17)],
            CodedIndex::HasCustomAttribute => &[
                Some(0x06),
                Some(0x04),
                Some(0x01),
                Some(0x02),
                Some(0x08),
                Some(0x09),
                Some(0x0A),
                Some(0x00),
                Some(0x0E),
                Some(0x17),
                Some(0x14),
                Some(0x11),
                Some(0x1A),
                Some(0x1B),
                Some(0x20),
                Some(0x23),
                Some(0x26),
                Some(0x27),
                Some(0x28),
                Some(0x2A),
                Some(0x2C),
                Some(0x2B),
            ],
            CodedIndex::HasFieldMarshal => &[Some(0x04), Some(0x08)],
            CodedIndex::HasDeclSecurity => &[Some(0x02), Some(0x06), Some(0x20)],
            CodedIndex::MemberRefParent => {
                &[Some(0x02), Some(0x01), Some(0x1A), Some(0x06), Some(0x1B)]
            }
            CodedIndex::HasSemantics => &[Some(0x14), Some(0x17)],
            CodedIndex::MethodDefOrRef => &[Some(0x06), Some(0x0A)],
            CodedIndex::MemberForwarded => &[Some(0x04), Some(0x06)],
            CodedIndex::Implementation => &[Some(0x26), Some(0x23), Some(0x27)],
            CodedIndex::CustomAttributeType => &[None, None, Some(0x06), Some(0x0A)],
            CodedIndex::ResolutionScope => &[Some(0x00), Some(0x1A), Some(0x23), Some(0x01)],
            CodedIndex::TypeOrMethodDef => &[Some(0x02), Some(0x06)],
        }
    }

    /// The table that a number in these bits names.
    pub fn table_named(self, tag: u32) -> Option<u8>
        ensures { result ≡ table_named self tag }
    {
        self.tables().get(tag as usize).copied().flatten()
    }
}

/// What a column holds.
#[derive(Clone, Copy, PartialEq, Eq)]
pub enum Column {
    /// A number of one byte.
    U8,
    /// A number of two bytes.
    U16,
    /// A number of four bytes.
    U32,
    /// A place in the heap of strings.
    StringIndex,
    /// The number of an item of the heap of GUIDs.
    GuidIndex,
    /// A place in the heap of blobs.
    BlobIndex,
    /// The number of a row of a table, from 1. Where it is 0 there is none.
    Row(u8),
    /// The number of the row of a table with which a list of members begins, which ends where that of the next row begins.
    Members(u8),
    /// A row, and in the low bits which table it is of.
    Coded(CodedIndex),
}

// The columns of each table by its number; a number without columns is of no table.
static COLUMNS: [&[Column]; 45] = [
    // 00 Module
    &[
        Column::U16,
        Column::StringIndex,
        Column::GuidIndex,
        Column::GuidIndex,
        Column::GuidIndex,
    ],
    // 01 TypeRef
    &[
        Column::Coded(CodedIndex::ResolutionScope),
        Column::StringIndex,
        Column::StringIndex,
    ],
    // 02 TypeDef
    &[
        Column::U32,
        Column::StringIndex,
        Column::StringIndex,
        Column::Coded(CodedIndex::TypeDefOrRef),
        Column::Members(0x04),
        Column::Members(0x06),
    ],
    &[],
    // 04 Field
    &[Column::U16, Column::StringIndex, Column::BlobIndex],
    &[],
    // 06 MethodDef
    &[
        Column::U32,
        Column::U16,
        Column::U16,
        Column::StringIndex,
        Column::BlobIndex,
        Column::Members(0x08),
    ],
    &[],
    // 08 Param
    &[Column::U16, Column::U16, Column::StringIndex],
    // 09 InterfaceImpl
    &[Column::Row(0x02), Column::Coded(CodedIndex::TypeDefOrRef)],
    // 0A MemberRef
    &[
        Column::Coded(CodedIndex::MemberRefParent),
        Column::StringIndex,
        Column::BlobIndex,
    ],
    // 0B Constant
    &[
        Column::U8,
        Column::U8,
        Column::Coded(CodedIndex::HasConstant),
        Column::BlobIndex,
    ],
    // 0C CustomAttribute
    &[
        Column::Coded(CodedIndex::HasCustomAttribute),
        Column::Coded(CodedIndex::CustomAttributeType),
        Column::BlobIndex,
    ],
    // 0D FieldMarshal
    &[
        Column::Coded(CodedIndex::HasFieldMarshal),
        Column::BlobIndex,
    ],
    // 0E DeclSecurity
    &[
        Column::U16,
        Column::Coded(CodedIndex::HasDeclSecurity),
        Column::BlobIndex,
    ],
    // 0F ClassLayout
    &[Column::U16, Column::U32, Column::Row(0x02)],
    // 10 FieldLayout
    &[Column::U32, Column::Row(0x04)],
    // 11 StandAloneSig
    &[Column::BlobIndex],
    // 12 EventMap
    &[Column::Row(0x02), Column::Members(0x14)],
    &[],
    // 14 Event
    &[
        Column::U16,
        Column::StringIndex,
        Column::Coded(CodedIndex::TypeDefOrRef),
    ],
    // 15 PropertyMap
    &[Column::Row(0x02), Column::Members(0x17)],
    &[],
    // 17 Property
    &[Column::U16, Column::StringIndex, Column::BlobIndex],
    // 18 MethodSemantics
    &[
        Column::U16,
        Column::Row(0x06),
        Column::Coded(CodedIndex::HasSemantics),
    ],
    // 19 MethodImpl
    &[
        Column::Row(0x02),
        Column::Coded(CodedIndex::MethodDefOrRef),
        Column::Coded(CodedIndex::MethodDefOrRef),
    ],
    // 1A ModuleRef
    &[Column::StringIndex],
    // 1B TypeSpec
    &[Column::BlobIndex],
    // 1C ImplMap
    &[
        Column::U16,
        Column::Coded(CodedIndex::MemberForwarded),
        Column::StringIndex,
        Column::Row(0x1A),
    ],
    // 1D FieldRVA
    &[Column::U32, Column::Row(0x04)],
    &[],
    &[],
    // 20 Assembly
    &[
        Column::U32,
        Column::U16,
        Column::U16,
        Column::U16,
        Column::U16,
        Column::U32,
        Column::BlobIndex,
        Column::StringIndex,
        Column::StringIndex,
    ],
    // 21 AssemblyProcessor
    &[Column::U32],
    // 22 AssemblyOS
    &[Column::U32, Column::U32, Column::U32],
    // 23 AssemblyRef
    &[
        Column::U16,
        Column::U16,
        Column::U16,
        Column::U16,
        Column::U32,
        Column::BlobIndex,
        Column::StringIndex,
        Column::StringIndex,
        Column::BlobIndex,
    ],
    // 24 AssemblyRefProcessor
    &[Column::U32, Column::Row(0x23)],
    // 25 AssemblyRefOS
    &[Column::U32, Column::U32, Column::U32, Column::Row(0x23)],
    // 26 File
    &[Column::U32, Column::StringIndex, Column::BlobIndex],
    // 27 ExportedType
    &[
        Column::U32,
        Column::U32,
        Column::StringIndex,
        Column::StringIndex,
        Column::Coded(CodedIndex::Implementation),
    ],
    // 28 ManifestResource
    &[
        Column::U32,
        Column::U32,
        Column::StringIndex,
        Column::Coded(CodedIndex::Implementation),
    ],
    // 29 NestedClass
    &[Column::Row(0x02), Column::Row(0x02)],
    // 2A GenericParam
    &[
        Column::U16,
        Column::U16,
        Column::Coded(CodedIndex::TypeOrMethodDef),
        Column::StringIndex,
    ],
    // 2B MethodSpec
    &[Column::Coded(CodedIndex::MethodDefOrRef), Column::BlobIndex],
    // 2C GenericParamConstraint
    &[Column::Row(0x2A), Column::Coded(CodedIndex::TypeDefOrRef)],
];

/// The columns of a table, none where there is no such table.
pub fn columns(table: u8) -> &'static [Column]
    ensures columns { result.now ≡ columns_of table }
    ensures few { length result.now ≤ 9 }
{
    match COLUMNS.get(usize::from(table)) {
        Some(columns) => columns,
        None => &[],
    }
}
