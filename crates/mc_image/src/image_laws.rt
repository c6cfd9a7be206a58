//! What follows from the definition of images.
ghost use Rattle.mc_image.specs.Image.{CodesHaveImages, ImagesAreOfOneCode, ImagesAreWrittenAgain};

/// The image that is written of a code is an image of it.
pub fn codes_have_images()
    ensures { CodesHaveImages }
{}

/// No two codes have the same image, and none has the same one in both versions.
pub fn images_are_of_one_code()
    ensures { ImagesAreOfOneCode }
{}

/// An image is the one that is written of its code, or its image in version 2 where that of version 1 is written.
pub fn images_are_written_again()
    ensures { ImagesAreWrittenAgain }
{}
