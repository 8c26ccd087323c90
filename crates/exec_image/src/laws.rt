// Laws of accepted files and of their sites, each an empty function whose contract is proved.
ghost use Rattle.std.specs.Prelude.{◌≡◌, ℕ, List, Some};
ghost use Rattle.site_spec.specs.declared.Site.{Site};
ghost use Rattle.site_spec.specs.Sites.{site_at};
ghost use Rattle.exec_image.specs.Accepted.{AcceptedFacts};
ghost use Rattle.exec_image.specs.Images.{IsAccepted};

use elf_read::readable_files_keep_their_facts;
use first_check::the_first_number_that_passes_is_found;

/// No two sites of a file share a return address: so the address to which a call returns tells which
/// site it came from.
pub fn no_two_sites_share_a_return_address()
    ensures { (file : List ℕ) (a b : ℕ) (s t : Site) → site_at file a ≡ Some s → site_at file b ≡ Some t
        → s.back ≡ t.back → s ≡ t }
{}

/// What the checks keep of every accepted file: where its code words stand, that they describe nothing of
/// the file, its heap functions' two words and its limits.
pub fn accepted_files_keep_their_facts()
    ensures { (file : List ℕ) → IsAccepted file → AcceptedFacts file }
{
    readable_files_keep_their_facts();
    the_first_number_that_passes_is_found();
}
