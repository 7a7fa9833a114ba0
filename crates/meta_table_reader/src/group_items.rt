ghost use Rattle.std.specs.Prelude.{◌≡◌, ℕ, List, ◌++◌, codes};
ghost use Rattle.meta_setting_tables.specs.declared.descriptor.Detail.{Detail};
ghost use Rattle.meta_table_text.specs.GroupItems.{detail_text};
ghost use Rattle.meta_table_reader.specs.ShownGroup.{IsShownDetail};

use super::cursor::Cursor;
use super::item::Item;
use meta_gen::{Descriptor, Detail};
use meta_types::Text;
use std::alloc::{AllocError, Global};

/// Where the kind of an entry begins, counted from the end of the offset.
const DETAIL_AT: usize = 34;

impl Item for Text {
    ghost use Rattle.meta_types.specs.Name.{IsName};
    ghost use Rattle.meta_table_text.specs.GroupItems.{enumerator_text};
    ghost use Rattle.meta_table_reader.specs.Some.{enumerator_some};

    ghost text = { enumerator_text };

    ghost IsShown = { IsName };

    fn read(alloc: Global, cursor: &mut Cursor) -> Result<Text, AllocError> {
        let name = cursor.text(alloc, "    \"", b'"')?;
        cursor.pass("\",\n");
        Ok(name)
    }

    ghost some = { enumerator_some };
}

fn detail(cursor: &mut Cursor) -> Detail
    ensures { (d : Detail) (rest : List ℕ) → IsShownDetail d
        → cursor.old ≡ codes ",\n        detail: " ++ (detail_text d ++ rest) → (result ≡ d) × (cursor.new ≡ rest) }
{
    let kind = cursor.byte_at(DETAIL_AT);
    if kind == b'B' {
        let bit = cursor.number_u8(",\n        detail: detail::Detail::Bool { bit: ", b' ');
        cursor.pass(" }");
        return Detail::Bool { bit };
    }
    if kind == b'E' {
        let last = cursor.number_u8(",\n        detail: detail::Detail::Enum { last: ", b',');
        let enumerators = cursor.number_u16(", enumerators: ", b' ');
        cursor.pass(" }");
        return Detail::Enum { last, enumerators };
    }
    if kind == b'N' {
        cursor.pass(",\n        detail: detail::Detail::Num");
        return Detail::Num;
    }
    cursor.pass(",\n        detail: detail::Detail::Preset");
    Detail::Preset
}

impl Item for Descriptor {
    ghost use Rattle.meta_table_text.specs.GroupItems.{descriptor_text};
    ghost use Rattle.meta_table_reader.specs.ShownGroup.{IsShownDescriptor};
    ghost use Rattle.meta_table_reader.specs.Some.{descriptor_some};

    ghost text = { descriptor_text };

    ghost IsShown = { IsShownDescriptor };

    fn read(alloc: Global, cursor: &mut Cursor) -> Result<Descriptor, AllocError> {
        let name = cursor.text(alloc, "    detail::Descriptor {\n        name: \"", b'"')?;
        let description = cursor.text(alloc, "\",\n        description: \"", b'"')?;
        let offset = cursor.number_u32("\",\n        offset: ", b',');
        let detail = detail(cursor);
        cursor.pass(",\n    }\n    ,\n");
        Ok(Descriptor {
            name,
            description,
            offset,
            detail,
        })
    }

    ghost some = { descriptor_some };
}
