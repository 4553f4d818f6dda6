//! What stands before the elements of a list.

ghost use Rattle.nc_base.specs.Grammar.{list_head};
ghost use Rattle.nc_fields.specs.code.Lists.{list_steps};

use crate::fields::FieldReader;
use crate::list_name::HeaderList;
use devices::Source;
use nc_base::Version;
use nc_window::{HeadFault, Window};

impl FieldReader {
    ghost use Rattle.nc_fields.specs.code.Checks.{at, Checked};

    /// Reads the tag of `list` and the number of its elements, adds both to the field list, and returns the number. `tag` is the tag of
    /// such a list; 0 may stand in its place. Errs with `BadTag` if another tag was read, with `BadCount` if the number's top bit is 1, or
    /// if the tag is 0 and the number isn't, with `HeaderTruncated` if bytes are missing, and if the source or an allocation fails.
    pub(crate) fn list_len<S: Source>(
        &mut self,
        window: &mut Window<'_, S>,
        version: Version,
        list: HeaderList,
        tag: u64,
    ) -> Result<u64, HeadFault>
        ensures { Checked (at window.old self.old) (at window.new self.new)
            (list_steps list) (list_head version tag) result }
    {
        let found = self.tag(window, list.tag(), tag)?;
        self.list_count(window, version, list.count(), found)
    }
}
